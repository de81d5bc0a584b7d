// Merges the read replies of the trace on standard input into one tally, the host's, by the call that is lent it, and prints for each the
// answer and the tally after it.
//
// The trace has one read after another. A read opened (kind 10) begins the tally anew, with nothing known of its keys; a reply that is not
// marked from the leader (kind 11) is merged into it. Every other record is passed by, and so is a malformed one. There is room for 1024.
// The last three lines are of counts over 8, which no trace can name.
#![tactic(auto)]

mod lent;
mod line;

ghost use Rattle.std.specs.Prelude.{◌≤◌, length, IfOk, IfErr};

use feed::{ReadFailed, read_more};
use lent::merged;
use line::Page;
use std::io::Read;
use std::process::ExitCode;
use tally::listed::listed;
use tally::open_reads::nothing_known;
use tally::{Merged, Tally};
use trace::Kind;

// The tally so far, and the text of its lines.
#[derive(Drop)]
struct Merging<'a> {
    tally: Tally,
    page: Page<'a>,
}

impl<'a> Merging<'a> {
    fn tell(&mut self, m: Merged) {
        self.page.line(m);
        self.tally = m.tally;
    }

    // One record.
    fn take(&mut self, bytes: &[u8]) {
        let rec = trace::record_at(bytes, 0);
        if trace::is_malformed(rec, trace::sum_is_right(bytes, 0)) {
            return;
        }
        match Kind::try_from(rec.kind) {
            Ok(Kind::OpenRead) => self.tell(Merged {
                outcome: Ok(()),
                tally: nothing_known(rec.count),
            }),
            Ok(Kind::ReadReply) if rec.sub == 0 => self.tell(merged(
                self.tally,
                listed(rec.count, rec.entries),
            )),
            _ => {}
        }
    }
}

// Reads to the end, or until the bytes are full: a turn that does not end adds one byte at least.
// Kept: `feed::each_block` gives the blocks one by one and stops where a read fails. Here the host's tally is merged after all is read, and what came before
// a failed read, of which `failed` promises how much it is, is merged and printed all the same.
fn filled(
    reader: &mut impl Read,
    errors: &impl Eprint,
    bytes: &mut [u8],
) -> Result<usize, ReadFailed>
    ensures have { IfOk result (λ n. n ≤ length bytes.new) }
    ensures failed { IfErr result (λ e. e.have ≤ length bytes.new) }
{
    let mut have = 0;
    for _ in 0..bytes.len() {
        let input = read_more(reader, errors, bytes, have)?;
        have = input.have;
        if input.ended {
            break;
        }
    }
    Ok(have)
}

// The status is 1 where a read or a write failed; where a read did, what came before it is merged and printed all the same.
fn main(rt: HostRuntime) -> ExitCode {
    let mut bytes = [0u8; 262144];
    let mut text = [0u8; 262144];
    let (mut reader, mut writer) = (rt.stdin(), rt.stdout());
    let read = filled(&mut reader, &rt, &mut bytes);
    let have = read.unwrap_or_else(|failed| failed.have);
    let mut merging = Merging {
        tally: nothing_known(0),
        page: Page {
            text: &mut text,
            at: 0,
        },
    };
    for record in bytes[..have].chunks_exact(256) {
        merging.take(record);
    }
    // A count over 8: of the tally held, of the reply, of both.
    for (held, reply) in [(9, 2), (2, 9), (9, 9)] {
        merging.tell(merged(listed(held, [1; 24]), listed(reply, [2; 24])));
    }
    let written = merging.page.write(&mut writer, &rt);
    if read.is_err() || written.is_err() {
        return ExitCode::FAILURE;
    }
    ExitCode::SUCCESS
}
