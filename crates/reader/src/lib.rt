// A reader of a lent trace: the lent bytes and a place in them. Its functions are thin; every branch stands in the two functions over plain
// bytes below them.
#![tactic(auto)]

ghost use Rattle.std.specs.Prelude.{◌≡◌};
ghost use Rattle.reader.specs.Steps.{after_at, step_at, started, moved_on};

use trace::{Next, Record, next_record, record_at};

// Kept: a rule of the project: no slice alone, since 01 pins "A reader steps through a lent trace" as a struct that holds the lent bytes and a place.
#[derive(Clone, Copy)]
pub struct Reader<'a> {
    pub bytes: &'a [u8],
    pub at: usize,
}

/// What a reader finds at its place: what stands there, the numbers of a whole record (else all zero), and the place after it.
// Kept: what may not change: `next` and `read_at` promise all three always (`step_at`): numbers all zero where no whole record is, and a place after.
#[derive(Clone, Copy, Debug, PartialEq, Eq)]
pub struct Step {
    pub found: Next,
    pub read: Record,
    pub after: usize,
}

/// The reader at the first place.
pub fn new<'a>(bytes: &'a [u8]) -> Reader<'a>
    ensures { result ≡ started bytes.entry }
{
    Reader { bytes, at: 0 }
}

/// What stands at the reader's place.
pub fn next<'a>(r: Reader<'a>) -> Step
    ensures { result ≡ step_at r.entry.bytes.now r.entry.at }
{
    step_at(r.bytes, r.at)
}

/// The reader after it.
pub fn after<'a>(r: Reader<'a>) -> Reader<'a>
    ensures { result ≡ moved_on r.entry }
{
    Reader {
        at: after_at(r.bytes, r.at),
        ..r
    }
}

/// What a reader finds at a place of lent bytes, for callers that hold no reader.
pub fn read_at(bytes: &[u8], at: usize) -> Step
    ensures { result ≡ step_at bytes.now at }
{
    next(Reader { bytes, at })
}

// The work: what stands at a place, and the place after it.
fn step_at(bytes: &[u8], at: usize) -> Step
    ensures { result ≡ step_at bytes.now at }
{
    Step {
        found: next_record(bytes, at),
        read: record_at(bytes, at),
        after: after_at(bytes, at),
    }
}

fn after_at(bytes: &[u8], at: usize) -> usize
    ensures { result ≡ after_at bytes.now at }
{
    match next_record(bytes, at) {
        Next::Whole(begin) => begin + 256,
        Next::Short => bytes.len(),
        Next::End => at,
    }
}
