// The told text. Where there is no room nothing changes: the text has room for the largest record.
use feed::{WriteFailed, write_text};
use play::put_row;
use std::io::Write;
use words::put_byte;

// The lent text, and the place after what was told.
// Kept: `merges` has one like it; one for both is no plainer: a page of `words` would be public, with a promise for each short method.
#[derive(Drop)]
pub(crate) struct Page<'a> {
    pub(crate) text: &'a mut [u8],
    pub(crate) at: usize,
}

impl<'a> Page<'a> {
    // Kept: the text is lent bytes of a fixed size, without a heap, and what `words::put_byte` and `play::put_row` leave in them, here and below, is proved.
    pub(crate) fn byte(&mut self, byte: u8) {
        self.at = put_byte(self.text, self.at, byte);
    }

    // A letter, then numbers.
    pub(crate) fn line(&mut self, letter: u8, numbers: &[u64]) {
        self.byte(letter);
        self.byte(b' ');
        self.row(numbers);
    }

    // Numbers, a blank between: by itself the line that `replay` prints.
    pub(crate) fn row(&mut self, row: &[u64]) {
        self.at = put_row(self.text, self.at, row);
    }

    // Writes the text so far; the next is at its front again.
    pub(crate) fn write(
        &mut self,
        writer: &mut impl Write,
        errors: &impl Eprint,
    ) -> Result<(), WriteFailed> {
        let n = self.at;
        self.at = 0;
        write_text(writer, errors, self.text, n)
    }
}
