// Plays the records on standard input and prints for each its line, its actions and the whole replica after it: the text that is
// compared with the Rust's.
#![tactic(auto)]

mod actions_text;
mod keys_text;
mod numbers_text;
mod page;
mod reads_text;
mod records;
mod slots_text;
mod sort;

use actions::ROOM;
use feed::{Stop, each_block};
use page::Page;
use records::Teller;
use replica::Replica;
use std::process::ExitCode;

// Before the first record no replica is made. The status is 1 where a read or a write failed.
fn main(rt: HostRuntime) -> ExitCode {
    let (mut reader, mut writer) = (rt.stdin(), rt.stdout());
    let mut bytes = [0u8; 16384];
    let mut room = [0u64; ROOM];
    let mut text = [0u8; 180000];
    let mut page = Page {
        text: &mut text,
        at: 0,
    };
    let mut teller = Teller {
        number: 0,
        replica: Replica::new(0, 0, 0, 0).replica,
        room: &mut room,
        page: &mut page,
        writer: &mut writer,
        errors: &rt,
    };
    match each_block(&mut reader, &rt, &mut bytes, &mut teller) {
        Ok(()) | Err(Stop::Unended) => ExitCode::SUCCESS,
        Err(_) => ExitCode::FAILURE,
    }
}
