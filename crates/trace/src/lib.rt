// The trace: 256-byte records in lent bytes, their sums, what makes one malformed, and stepping from one to the next.
#![tactic(auto)]

mod check;
mod cursor;
mod fields;
mod kind;

pub use check::{is_malformed, sum_is_right, write_sum};
pub use cursor::next_record;
pub use fields::{keys_of, record_at};
pub use kind::{Kind, UnknownKind};

/// A record's numbers. An entry is three of `entries`: key, 0, 0, or tag, slot, value.
#[derive(Clone, Copy, Debug, PartialEq, Eq)]
pub struct Record {
    // Kept: what may not change, `sub` too: `is_malformed` takes any number here, and promises which are malformed (13).
    pub kind: u64,
    pub peer: u64,
    pub sub: u64,
    pub count: usize,
    pub slot: u64,
    pub trigger: u64,
    pub endprep: u64,
    pub ballot: u64,
    pub voted: u64,
    pub batch: u64,
    pub bar: u64,
    // Kept: a rule of the project: memory is fixed, and 01 has "eight entries of three numbers" in each record, of which `count` are used.
    pub entries: [u64; 24],
}

/// What stands at a place of a trace: a whole record, which begins there and ends 256 on; 1 to 255 bytes; or nothing.
#[derive(Clone, Copy, Debug, PartialEq, Eq)]
pub enum Next {
    Whole(usize),
    Short,
    End,
}
