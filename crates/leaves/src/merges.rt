// Every case of 01's merge: what is held against what is told, with a smaller, an equal and a larger slot, an equal and another value.
use std::io;
use std::io::Write;
use tally::merge::merge_key;
use tally::{Best, Conflict, Held};

pub(crate) fn value(slot: u64, value: u64) -> Best {
    Best::Value(Held { slot, value })
}

pub(crate) fn run(out: &mut impl Write) -> io::Result<()> {
    let helds = [Best::Nothing, Best::Slot(5), value(5, 50)];
    let tolds = [
        Best::Nothing,
        Best::Slot(4),
        Best::Slot(5),
        Best::Slot(6),
        value(4, 50),
        value(4, 51),
        value(5, 50),
        value(5, 51),
        value(6, 50),
        value(6, 51),
    ];
    for (h, held) in helds.iter().enumerate() {
        for (t, told) in tolds.iter().enumerate() {
            match merge_key(*held, *told) {
                Ok(best) => writeln!(out, "merge {h} {t} 0 {best}")?,
                Err(Conflict) => writeln!(out, "merge {h} {t} 12 {}", Best::Nothing)?,
            }
        }
    }
    Ok(())
}
