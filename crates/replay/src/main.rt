// Plays the records on standard input and prints a line for each. Memory is constant: at most 16 KiB are read, then played, then
// their lines are written.
#![tactic(auto)]

use actions::ROOM;
use feed::{Stop, Taker, WriteFailed, each_block, write_text};
use play::{Run, show_all, show_at};
use replica::Replica;
use std::io::Write;
use std::process::ExitCode;

// What plays the blocks: the run, the lent room of its actions, the text of its lines, and where these go.
#[derive(Drop)]
struct Player<'a, W, E> {
    run: Run,
    room: &'a mut [u64],
    text: &'a mut [u8],
    writer: &'a mut W,
    errors: &'a E,
}

// Plays a block, and writes its lines; the next are at the text's front again. A record begun is short, and prints 13.
// Kept: each field of `Player` by itself: as the body of `take_block` it was tried, and the proof didn't close: the borrow checker has no rule yet for the
// room and the text, lent together from behind `self`.
fn played(
    run: &mut Run,
    block: &[u8],
    room: &mut [u64],
    text: &mut [u8],
    writer: &mut impl Write,
    errors: &impl Eprint,
) -> Result<(), WriteFailed> {
    *run = if block.len() % 256 == 0 {
        show_all(*run, room, block, text)
    } else {
        show_at(*run, room, block, 0, text)
    };
    let n = run.place;
    run.place = 0;
    write_text(writer, errors, text, n)
}

impl<'a, W: Write, E: Eprint> Taker for Player<'a, W, E> {
    fn take_block(&mut self, block: &[u8]) -> Result<(), WriteFailed> {
        played(
            &mut self.run,
            block,
            self.room,
            self.text,
            self.writer,
            self.errors,
        )
    }
}

// 64 records at a time, and 147 bytes of text for the line of each. Before the first no replica is made. The status is 1 where a read or a
// write failed.
fn main(rt: HostRuntime) -> ExitCode {
    let (mut reader, mut writer) = (rt.stdin(), rt.stdout());
    let mut bytes = [0u8; 16384];
    let mut room = [0u64; ROOM];
    let mut text = [0u8; 10000];
    let mut player = Player {
        run: Run {
            number: 0,
            place: 0,
            replica: Replica::new(0, 0, 0, 0).replica,
        },
        room: &mut room,
        text: &mut text,
        writer: &mut writer,
        errors: &rt,
    };
    match each_block(&mut reader, &rt, &mut bytes, &mut player) {
        Ok(()) | Err(Stop::Unended) => ExitCode::SUCCESS,
        Err(_) => ExitCode::FAILURE,
    }
}
