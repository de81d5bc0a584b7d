// A trace as it comes in, and text as it goes out: what is read is added to the bytes of a record begun.
#![tactic(auto)]

ghost use Rattle.std.specs.Prelude.{ℕ, List, ◌<◌, ◌≡◌, length, take, IsErr, OnOk};
ghost use Rattle.std.specs.Io.KnownBytes.{Appends, Keeps};
ghost use Rattle.feed.specs.Feed.{told, ReadBehind, ReadNext, Fronted, Given};

use std::io::{ErrorKind, Read, Write};

#[cfg(test)]
mod tests;

/// What a read left: how many bytes there are now, and whether there is no more to come.
#[derive(Clone, Copy, Debug, PartialEq, Eq)]
pub struct Input {
    pub have: usize,
    pub ended: bool,
}

/// A read failed, and standard error was told: how many bytes there were, and are.
#[derive(Clone, Copy, Debug, PartialEq, Eq)]
pub struct ReadFailed {
    pub have: usize,
}

/// Not all was written; standard error was told, but where the text has not so many bytes, or where nobody reads the pipe.
#[derive(Clone, Copy, Debug, PartialEq, Eq)]
pub struct WriteFailed;

/// Why not every block was taken: a read failed, a taker could not write, or no turn was left.
#[derive(Clone, Copy, Debug, PartialEq, Eq)]
pub enum Stop {
    Unread,
    Unwritten,
    Unended,
}

/// What takes the blocks of a trace, one after the other.
pub trait Taker {
    /// What a block taken does to the taker; where it isn't given, anything.
    ghost takes: { Self → List ℕ → Self → Type 0 } = { λ p block q. Unit {0} };

    /// Takes whole records, none or more, or at the end the bytes of a record begun.
    fn take_block(&mut self, block: &[u8]) -> Result<(), WriteFailed>
        ensures { OnOk result (takes self.old block.now self.new) };
}

/// Reads once, behind the first `have` bytes, which stay; where there are not so many, nothing is read. Where the read fails, standard error
/// says so.
pub fn read_more<R: Read>(
    reader: &mut R,
    errors: &impl Eprint,
    bytes: &mut [u8],
    have: usize,
) -> Result<Input, ReadFailed>
    ensures behind { ReadBehind bytes.old have (told result) bytes.new }
    ensures next { ReadNext (R.remaining reader.old) (R.remaining reader.new) have (told result) bytes.new }
{
    if bytes.len() < have {
        return Ok(Input {
            have: 0,
            ended: true,
        });
    }
    match reader.read(&mut bytes[have..]) {
        Ok(more) => Ok(Input {
            have: have + more,
            ended: more == 0,
        }),
        Err(_) => {
            let _ = errors.eprintln("standard input cannot be read");
            Err(ReadFailed { have })
        }
    }
}

/// Moves what stands past the last whole record of the first n bytes to the front, and gives how many bytes that is; where there
/// are not n bytes, 0, and nothing changes.
pub fn keep_rest(bytes: &mut [u8], n: usize) -> usize
    ensures { Fronted bytes.old n result bytes.new }
{
    if bytes.len() < n {
        return 0;
    }
    let rest = n % 256;
    bytes.copy_within(n - rest..n, 0);
    rest
}

/// Writes the first n bytes of a text; fails where there are not n. Where that fails, standard error says so, but for a pipe that nobody reads.
pub fn write_text<W: Write>(
    writer: &mut W,
    errors: &impl Eprint,
    text: &[u8],
    n: usize,
) -> Result<(), WriteFailed>
    ensures short { length text.now < n → IsErr result }
    ensures none { length text.now < n → Keeps (W.contents writer.old) (W.contents writer.new) }
    ensures all { OnOk result (Appends (W.contents writer.old) (W.contents writer.new) (take n text.now)) }
{
    if text.len() < n {
        return Err(WriteFailed);
    }
    if let Err(e) = writer.write_all(&text[..n]) {
        if e.kind() != ErrorKind::BrokenPipe {
            let _ = errors.eprintln("standard output cannot be written");
        }
        return Err(WriteFailed);
    }
    Ok(())
}

/// Reads to the end, where the bytes have room for a record, and gives what comes to the taker: each time the whole records that are there, and at
/// the end the bytes past the last, if there are any. Stops where a read or the taker fails. A proved loop has to end, and nothing says that the input
/// does: it counts its turns, up to a number that no run uses up.
pub fn each_block<R: Read, T: Taker>(
    reader: &mut R,
    errors: &impl Eprint,
    bytes: &mut [u8],
    taker: &mut T,
) -> Result<(), Stop>
    ensures room { length bytes.new ≡ length bytes.old }
    ensures given { OnOk result (Given T.takes (R.remaining reader.old) (R.remaining reader.new) taker.old taker.new (length bytes.old)) }
{
    let mut have = 0;
    for _ in 0..u64::MAX {
        let Ok(input) = read_more(reader, errors, bytes, have) else {
            return Err(Stop::Unread);
        };
        let n = input.have;
        if input.ended {
            if 0 < n && taker.take_block(&bytes[..n]).is_err() {
                return Err(Stop::Unwritten);
            }
            return Ok(());
        }
        if taker.take_block(&bytes[..n - n % 256]).is_err() {
            return Err(Stop::Unwritten);
        }
        have = keep_rest(bytes, n);
    }
    Err(Stop::Unended)
}
