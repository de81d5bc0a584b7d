// The replica: a value. Every call takes it, is lent room for its actions, and hands it back with its answer.
#![tactic(auto)]

mod added;
mod completions;
mod elections;
mod fit;
mod messages;
mod reads_calls;
mod refusals;
mod replies;
mod settle;

use batch::KeyTable;
use decide::{PeerBars, Scalars};
use tally::Reads;
use window::{Summary, Window};

#[derive(Clone, Copy)]
pub struct Replica {
    pub sc: Scalars,
    pub bars: PeerBars,
    pub window: Window,
    pub keys: KeyTable,
    pub reads: Reads,
    pub summary: Summary,
}

// Why a call is refused, by 01's numbers 1 to 12, and 13 to 15 of a trace record and of 02.
#[derive(Clone, Copy, Debug, PartialEq, Eq)]
pub enum Refusal {
    // 1: the room is too short, or the record unfit
    Unready,
    // 2: the sender is not a member, or self where another has to send
    NotAPeer,
    // 3: the ballot's owner is not its sender
    NotOwner,
    // 4: the slot is at or past the log end, or a PrepareReply finds no leader
    PastEnd,
    // 5: a slot at start + 64 or later is needed
    PastWindow,
    // 6: an assertion, index or unwrap of the source would fail
    Contradiction,
    // 7: more new keys than the table has free
    KeysFull,
    // 8: the first uncommitted slot is below exec_bar, or no ballot is left
    NoStepUp,
    // 9: a batch is offered to a replica that is no prepared leader
    NotLeading,
    // 10: a new replica, read, list or batch with numbers outside 01's
    Outside,
    // 11: as many reads are open as may be
    ReadsFull,
    // 12: a read reply conflicts; what was merged before stays
    Conflict,
    // 13: a trace record is malformed
    Malformed,
    // 14: the summary is not the walk's
    WrongSummary,
    // 15: a strict Accept has another batch for a committed slot
    Renamed,
}

// What a call hands back: how many actions the room has, or why it is refused; and the replica after it.
// Kept: a rule of the project: no Result of both, since 01 wants "each call takes the replica by value and hands it back with its answer", refused too.
#[derive(Clone, Copy)]
pub struct Handled {
    pub outcome: Result<usize, Refusal>,
    pub replica: Replica,
}

// A new replica, or that its numbers are outside 01's (10).
// Kept: what may not change: no Result of both, since `Replica::new` promises a record when refused too, the all-zero one (`new_replica`).
#[derive(Clone, Copy)]
pub struct Made {
    pub outcome: Result<(), Refusal>,
    pub replica: Replica,
}

// Which entry a log completion names.
#[derive(Clone, Copy, Debug, PartialEq, Eq)]
pub enum Entry {
    PrepareBal,
    AcceptData,
    CommitSlot,
}

// A log completion: the entry's kind, slot and ballot, and the size of the log with it.
#[derive(Clone, Copy, Debug, PartialEq, Eq)]
pub struct Done {
    pub entry: Entry,
    pub slot: u64,
    pub ballot: u64,
    pub size: u64,
}
