// The text of the records of lent bytes, line by line.
ghost use Rattle.std.specs.Prelude.{◌≡◌, ◌+◌, ◌*◌, ◌/◌, ◌≤◌, length};
ghost use Rattle.words.specs.Put.{Written};
ghost use Rattle.play.specs.Lines.{item_text, end_of, row_text, Rowed, Shows, shown_at, shown};

use crate::calls::play_at;
use crate::{Run, line_of};

// Kept: what may not change, here and below: text and place are two, since the clauses of `put_row` and `show_at` speak of each alone.
/// Puts a row of numbers at a place and gives the next; where there are not 21 bytes a number, nothing changes and the place stays.
pub fn put_row(text: &mut [u8], at: usize, row: &[u64]) -> usize
    ensures { Rowed text.old at row.now result text.new }
{
    // Kept: what may not change: `put_row` promises that a text too short for the row stays, and the place with it (`Rowed`).
    let most = text.len() / 21;
    if most < row.len() {
        return at;
    }
    let need = 21 * row.len();
    if text.len() - need < at {
        return at;
    }
    put_items(text, at, row)
}

fn put_items(text: &mut [u8], at: usize, row: &[u64]) -> usize
    requires { at + 21 * length row.now ≤ length text.old }
    ensures { Written text.old at (row_text row.now) result text.new }
{
    let mut place = at;
    for i in 0..row.len() {
        let end = end_of(i, row.len());
        place = put_item(text, place, row[i], end);
    }
    place
}

fn put_item(text: &mut [u8], at: usize, n: u64, end: u8) -> usize
    requires { at + 21 ≤ length text.old }
    ensures { Written text.old at (item_text n end) result text.new }
{
    let place = words::put_number(text, at, n);
    words::put_byte(text, place, end)
}

fn end_of(i: usize, n: usize) -> u8
    requires { i + 1 ≤ n }
    ensures { result ≡ end_of i n }
{
    if i + 1 == n { b'\n' } else { b' ' }
}

/// Plays the record that begins at a place, and puts its line into the text.
pub fn show_at(run: Run, room: &mut [u64], bytes: &[u8], at: usize, text: &mut [u8]) -> Run
    ensures { Shows (shown_at bytes.now at (record { run = run; room = room.old; text = text.old })) result room.new text.new }
{
    let h = play_at(run.replica, room, bytes, at);
    let number = run.number.wrapping_add(1);
    let line = line_of(number, h.answer(), h.count(), h.replica.sc);
    let place = put_row(text, run.place, &line);
    Run {
        number,
        place,
        replica: h.replica,
    }
}

/// Plays every whole record.
pub fn show_all(mut run: Run, room: &mut [u64], bytes: &[u8], text: &mut [u8]) -> Run
    ensures { Shows (shown bytes.now (length bytes.now / 256) (record { run = run; room = room.old; text = text.old })) result room.new text.new }
{
    // Kept: what may not change: no chunks, since `show_at` is public and promises of all the bytes and a place.
    for i in 0..bytes.len() / 256 {
        run = show_at(run, room, bytes, 256 * i, text);
    }
    run
}
