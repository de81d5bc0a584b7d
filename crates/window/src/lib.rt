// The log's slots: their searches and growth, and the sweeps that change each slot of a range and write its actions.
#![tactic(auto)]

mod counting;
mod keeping;
mod searches;
mod sweeps;

pub use searches::{larger_of, no_slots};
use slots::Slot;
pub use sweeps::put_promises;

// How many slots a window has places for.
pub const SLOTS: usize = 64;

// The log from the start slot on: the first `len` slots are present.
// Kept: an array and a length, since memory is fixed and there is no heap; a host hands over any such record, an unfit one too.
#[derive(Clone, Copy)]
pub struct Window {
    pub len: usize,
    pub slots: [Slot; SLOTS],
}

// 02, Wish 1: the first slot not committed, by its number (the log end if there is none), and how many slots from commit_bar on are Accepting.
#[derive(Clone, Copy, Debug, PartialEq, Eq)]
pub struct Summary {
    pub first: u64,
    pub accepting: u64,
}

// What one pass over the slots in use finds, where all are fit: the place of the first below Committed, and how many from a place on are Accepting.
#[derive(Clone, Copy)]
pub struct Survey {
    pub first: usize,
    pub accepting: u64,
}

// A slot after one turn of a loop, and the place of the next action.
#[derive(Clone, Copy)]
pub(crate) struct Turned {
    pub next: usize,
    pub slot: Slot,
}

// A window after a loop, and the place of the next action.
#[derive(Clone, Copy)]
pub struct Placed {
    pub next: usize,
    pub window: Window,
}
