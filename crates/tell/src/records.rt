// A record told: its line, its actions, and the whole replica after it.
use crate::actions_text::actions;
use crate::keys_text::keys;
use crate::numbers_text::{bars, numbers, summary};
use crate::page::Page;
use crate::reads_text::reads;
use crate::slots_text::slots;
use feed::{Taker, WriteFailed};
use play::{line_of, play_at};
use replica::Replica;
use std::io::Write;

// What tells the records: how many were told, the replica after them, the lent room of their actions, the text, and where it goes.
#[derive(Drop)]
pub(crate) struct Teller<'a, 'b, W, E> {
    pub(crate) number: u64,
    pub(crate) replica: Replica,
    pub(crate) room: &'a mut [u64],
    pub(crate) page: &'a mut Page<'b>,
    pub(crate) writer: &'a mut W,
    pub(crate) errors: &'a E,
}

// The replica: `Z` alone if there is none yet.
fn state(page: &mut Page<'_>, r: &Replica) {
    let sc = r.sc;
    if sc.group == 0 {
        page.byte(b'Z');
        page.byte(b'\n');
        return;
    }
    numbers(page, r);
    summary(page, r.summary);
    bars(page, sc.id, sc.group, &r.bars);
    slots(page, sc.strict(), sc.start, &r.window);
    keys(page, &r.keys);
    reads(page, r.reads);
}

// Plays a record and tells it; the replica after it.
// Kept: fields of `Teller` by themselves: as a method of it this was tried, and the proof didn't close: the borrow checker has no rule yet for the room and
// the page, lent together from behind `self`.
fn told(
    number: u64,
    replica: Replica,
    room: &mut [u64],
    bytes: &[u8],
    page: &mut Page<'_>,
) -> Replica {
    let h = play_at(replica, room, bytes, 0);
    page.row(&line_of(number, h.answer(), h.count(), h.replica.sc));
    actions(page, room, h.count());
    state(page, &h.replica);
    h.replica
}

impl<'a, 'b, W: Write, E: Eprint> Taker for Teller<'a, 'b, W, E> {
    // Each record, a record begun too, which is short. The text is written where the next might not fit: none has 150,000 bytes.
    fn take_block(&mut self, block: &[u8]) -> Result<(), WriteFailed> {
        for bytes in block.chunks(256) {
            self.number = self.number.wrapping_add(1);
            self.replica = told(self.number, self.replica, self.room, bytes, self.page);
            if 30000 <= self.page.at {
                self.page.write(self.writer, self.errors)?;
            }
        }
        self.page.write(self.writer, self.errors)
    }
}
