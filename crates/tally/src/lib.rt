// Read tallies: what a replica knows of the keys of each open read (quorumread.rs, handle_msg_read_query_reply).
#![tactic(auto)]

pub mod kept;
pub mod listed;
pub mod merge;
pub mod open_reads;

use batch::KEYS;
use std::fmt;

// How many reads can be open at a time.
pub const READS: usize = 16;

// A slot and the value that it holds.
#[derive(Clone, Copy, Debug, PartialEq, Eq)]
pub struct Held {
    pub slot: u64,
    pub value: u64,
}

// The best answer known for a key.
// Kept: 01 asks for an enum of three cases, held in a struct for each key.
#[derive(Clone, Copy, Debug, PartialEq, Eq)]
pub enum Best {
    Nothing,
    Slot(u64),
    Value(Held),
}

// 01's three numbers: tag, slot and value.
impl fmt::Display for Best {
    ghost use Rattle.std.specs.Prelude.{Some};
    ghost use Rattle.tally.specs.Texts.{best_text};

    ghost output = { λ best. Some (best_text best) };

    fn fmt<W: fmt::Write>(&self, f: &mut fmt::Formatter<W>) -> fmt::Result {
        match self {
            Best::Nothing => f.write_str("0 0 0"),
            Best::Slot(slot) => write!(f, "1 {slot} 0"),
            Best::Value(held) => write!(f, "2 {} {}", held.slot, held.value),
        }
    }
}

// One key's place in a tally.
#[derive(Clone, Copy, Debug, PartialEq, Eq)]
pub struct KeyBest {
    pub best: Best,
}

// A tally, and a reply: the best answers of the first `count` keys.
// Kept: an array and a count, here and below, since the core has fixed memory and no heap. No `==` is derived for a struct that has one: two tallies that
// know the same differ where places past the count do.
#[derive(Clone, Copy, Debug)]
pub struct Tally {
    pub count: usize,
    pub bests: [KeyBest; KEYS],
}

// A key of which held and reply have different values at one slot.
#[derive(Clone, Copy, Debug, PartialEq, Eq)]
pub struct Conflict;

// Why a reply is not merged, or not to its end.
#[derive(Clone, Copy, Debug, PartialEq, Eq)]
pub enum MergeError {
    // the tally held has more than eight keys
    HeldTooLong,
    // the reply has more than eight
    ReplyTooLong,
    UnequalLengths,
    // at a key: the keys before it are merged
    Conflict,
}

// A reply merged into a tally, and the tally after it.
#[derive(Clone, Copy, Debug)]
pub struct Merged {
    pub outcome: Result<(), MergeError>,
    pub tally: Tally,
}

// What a closed read answers for one key: 01's tag, and the value, or the leader to retry at.
#[derive(Clone, Copy, Debug, PartialEq, Eq)]
pub struct ReadAnswer {
    // Kept: a number, since 01 states the answer so and it goes into the numbers of an action as it is (`answer_of`, `numbers_of`).
    pub tag: u64,
    pub value: u64,
}

// An open read: who has answered, the keys asked for, and what is known of them.
#[derive(Clone, Copy, Debug)]
pub struct Read {
    pub id: u64,
    pub acks: u64,
    pub keys: [u64; KEYS],
    pub tally: Tally,
}

// The table of open reads: the first `count` places are in use.
#[derive(Clone, Copy, Debug)]
pub struct Reads {
    pub count: usize,
    pub reads: [Read; READS],
}

// Why a read is not opened.
#[derive(Clone, Copy, Debug, PartialEq, Eq)]
pub enum OpenError {
    // no keys, more than eight, or an id in use
    Outside,
    // as many reads are open as there is room for
    Full,
}

// One reply to one open read: whether it closes, with so many keys answered, or stays open; and the read after it.
#[derive(Clone, Copy, Debug)]
pub struct Replied {
    pub outcome: Result<Option<usize>, MergeError>,
    pub read: Read,
}
