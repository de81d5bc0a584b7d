// A line: the answer, the number of keys, then tag, slot and value of each key. Where there is no room nothing is written.
use feed::{WriteFailed, write_text};
use std::io::Write;
use tally::{Best, Merged};
use words::{put_byte, put_number};

// The lent text, and the place after the lines so far.
// Kept: `tell` has one like it; one for both is no plainer: a page of `words` would be public, with a promise for each short method.
#[derive(Drop)]
pub(crate) struct Page<'a> {
    pub(crate) text: &'a mut [u8],
    pub(crate) at: usize,
}

// Tag, slot and value.
// Kept: the program prints the same on every input. Where the text is full, a number that doesn't fit is left out whole and what follows it is still put;
// `write!` with the Display of `Best` puts several numbers, or some of the digits, at once.
fn best_row(best: Best) -> [u64; 3] {
    match best {
        Best::Nothing => [0, 0, 0],
        Best::Slot(slot) => [1, slot, 0],
        Best::Value(held) => [2, held.slot, held.value],
    }
}

impl<'a> Page<'a> {
    fn byte(&mut self, byte: u8) {
        self.at = put_byte(self.text, self.at, byte);
    }

    // Each with a blank before it.
    // Kept: the text is lent bytes of a fixed size, without a heap, and what `words::put_number` and `put_byte` leave in them, here and below, is proved.
    fn numbers(&mut self, numbers: &[u64]) {
        for n in numbers {
            self.byte(b' ');
            self.at = put_number(self.text, self.at, *n);
        }
    }

    pub(crate) fn line(&mut self, m: Merged) {
        let answer = m.outcome.err().map_or(0, |error| error.number());
        self.at = put_number(self.text, self.at, answer);
        self.numbers(&[m.tally.count as u64]);
        for key in m.tally.bests.iter().take(m.tally.count) {
            self.numbers(&best_row(key.best));
        }
        self.byte(b'\n');
    }

    pub(crate) fn write(
        &mut self,
        writer: &mut impl Write,
        errors: &impl Eprint,
    ) -> Result<(), WriteFailed> {
        let n = self.at;
        write_text(writer, errors, self.text, n)
    }
}
