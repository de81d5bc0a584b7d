// Batches, and the table of the highest slots.
use crate::say::{Numbers, Shown};
use batch::{Batch, KEYS, KeyTable, TABLE};
use std::io::Write;
use std::{array, io};

const EIGHT: [u64; KEYS] = [1, 2, 3, 4, 5, 6, 7, 8];

fn of(id: u64, count: usize, keys: [u64; KEYS]) -> Batch {
    Batch { id, count, keys }
}

fn makes(out: &mut impl Write) -> io::Result<()> {
    for (id, count) in [(7, 8), (7, 9), (0, 1), (0, 0), (7, 0), (7, 2)] {
        let made = batch::make(id, count, EIGHT);
        let answer = if made.is_some() { 0 } else { 10 };
        let b = made.unwrap_or(batch::empty_batch());
        writeln!(out, "make {answer}{}", Shown(b))?;
    }
    Ok(())
}

fn same(out: &mut impl Write, a: Batch, b: Batch) -> io::Result<()> {
    let same = u64::from(a == b);
    writeln!(out, "same {same}")
}

fn sames(out: &mut impl Write) -> io::Result<()> {
    let a = of(7, 2, [1, 2, 0, 0, 0, 0, 0, 0]);
    for b in [
        of(7, 2, [1, 2, 9, 9, 9, 9, 9, 9]),
        of(8, 2, [1, 2, 0, 0, 0, 0, 0, 0]),
        of(7, 3, [1, 2, 0, 0, 0, 0, 0, 0]),
        of(7, 2, [1, 3, 0, 0, 0, 0, 0, 0]),
    ] {
        same(out, a, b)?;
    }
    let none = batch::empty_batch();
    same(out, none, none)?;
    for b in [none, of(7, 0, [0; 8])] {
        let empty = u64::from(b.is_empty());
        writeln!(out, "empty {empty}")?;
    }
    Ok(())
}

// A name, the count, and the keys from a place up to another, each with its slot.
fn table(out: &mut impl Write, name: &str, t: &KeyTable, from: usize, to: usize) -> io::Result<()> {
    write!(out, "{name} {}", t.count)?;
    for (key, slot) in t.keys.iter().zip(&t.slots).take(to).skip(from) {
        write!(out, " {key} {slot}")?;
    }
    writeln!(out)
}

// A repeated key, a key known at a larger slot, a key known at a smaller one.
fn tables(out: &mut impl Write) -> io::Result<()> {
    let mut t = batch::empty_table();
    table(out, "table", &t, 0, 3)?;
    for (slot, b) in [
        (3, of(1, 3, [10, 20, 10, 0, 0, 0, 0, 0])),
        (2, of(2, 2, [20, 30, 0, 0, 0, 0, 0, 0])),
        (9, of(3, 1, [10, 0, 0, 0, 0, 0, 0, 0])),
    ] {
        t = t.refresh(slot, b);
        table(out, "table", &t, 0, 3)?;
    }
    for key in [20, 99] {
        let at = t.find(key);
        writeln!(out, "place {key} {at}")?;
    }
    Ok(())
}

// A table that knows the keys from 0 up to eight times n.
fn filled(n: u64) -> KeyTable {
    let mut t = batch::empty_table();
    for i in 0..n {
        let keys = array::from_fn(|j| i.wrapping_mul(8).wrapping_add(j as u64));
        t = t.refresh(1, of(1, 8, keys));
    }
    t
}

fn full(out: &mut impl Write, t: KeyTable, b: Batch) -> io::Result<()> {
    let full = u64::from(t.overfull(b));
    writeln!(out, "full {full}")
}

// Exactly full, one more, a repeated key, a known key; then a full table: known keys, a new one, none.
fn fulls(out: &mut impl Write) -> io::Result<()> {
    let most = filled(31);
    let fresh = of(2, 8, [1000, 1001, 1002, 1003, 1004, 1005, 1006, 1007]);
    full(out, most, fresh)?;
    let more = most.refresh(1, of(3, 1, [248, 0, 0, 0, 0, 0, 0, 0]));
    for b in [
        fresh,
        of(2, 8, [1000, 1000, 1001, 1002, 1003, 1004, 1005, 1006]),
        of(2, 8, [0, 1000, 1001, 1002, 1003, 1004, 1005, 1006]),
    ] {
        full(out, more, b)?;
    }
    let all = filled(32);
    for b in [
        of(2, 8, [0, 8, 16, 24, 32, 40, 48, 255]),
        of(2, 2, [255, 256, 0, 0, 0, 0, 0, 0]),
        of(0, 0, [0; 8]),
    ] {
        full(out, all, b)?;
    }
    let t = all.refresh(5, of(2, 2, [255, 256, 0, 0, 0, 0, 0, 0]));
    table(out, "last", &t, 254, TABLE)
}

// The table where it stands: a new key, a smaller slot, a batch, a full table; 7 at a full table for a new and a known key, and with one place
// left.
fn lent(out: &mut impl Write) -> io::Result<()> {
    let mut t = batch::empty_table();
    t.note(10, 3);
    table(out, "note", &t, 0, 1)?;
    t.note(10, 2);
    table(out, "note", &t, 0, 1)?;
    t.note_batch(7, of(1, 2, [10, 20, 0, 0, 0, 0, 0, 0]));
    table(out, "note", &t, 0, 1)?;
    t.count = TABLE;
    t.note(99, 1);
    table(out, "note", &t, 0, 1)?;
    for (count, key) in [(TABLE, 99), (TABLE, 10), (TABLE - 1, 99)] {
        t.count = count;
        let over = u64::from(t.overfull(of(2, 1, [key, 0, 0, 0, 0, 0, 0, 0])));
        writeln!(out, "over {over}")?;
    }
    Ok(())
}

pub(crate) fn run(out: &mut impl Write) -> io::Result<()> {
    makes(out)?;
    sames(out)?;
    tables(out)?;
    fulls(out)?;
    lent(out)?;
    for count in [2, 9, 0] {
        writeln!(out, "first{}", Numbers(&batch::first_keys(count, EIGHT)))?;
    }
    Ok(())
}
