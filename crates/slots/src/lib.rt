// One slot of the log; what a call makes of ONE slot is in `turns`.
#![tactic(auto)]

mod turns;

ghost use Rattle.std.specs.Prelude.{◌≡◌};
ghost use Rattle.slots.specs.Slots.{no_vote, null_slot, new_book, sourced};
ghost use Rattle.slots.specs.Slots.{with_state, with_batch, with_vote, with_leader, with_replica, with_external, with_offset};
ghost use Rattle.slots.specs.Slots.{appended_slot, offered_slot, fit_slot};

use batch::{Batch, KEYS, empty_batch};

// A status is a number that is compared as the source compares statuses.
// Kept: a number: `Slot::redone` takes a slot with any, as a host may write the public field, and `Window::stop` any beside the slots; what may not change.
pub const NULL: u64 = 0;

pub const PREPARING: u64 = 1;

pub const ACCEPTING: u64 = 2;

pub const COMMITTED: u64 = 3;

pub const EXECUTED: u64 = 4;

// The ballot and batch of the last Accept taken from a peer; a strict leader's also of its own.
#[derive(Clone, Copy)]
pub struct Vote {
    pub ballot: u64,
    pub batch: Batch,
}

// What a leader keeps of a slot.
// Kept: what may not change: `present` is no Option: `Slot::noted`, `Slot::lacks_note` and `Slot::is_fit` use the numbers beside it where it is false too.
#[derive(Clone, Copy, Debug, PartialEq, Eq)]
pub struct LeaderBook {
    pub present: bool,
    pub trigger: u64,
    pub endprep: u64,
    pub prepare_acks: u64,
    pub prepare_max_bal: u64,
    pub accept_acks: u64,
    pub notes: u64,
}

// What a follower keeps of a slot: whom it answers.
// Kept: what may not change: `Slot::prepared` takes any book and hands it back whole, with numbers also where `present` is false: a host may write both.
#[derive(Clone, Copy, Debug, PartialEq, Eq)]
pub struct ReplicaBook {
    pub present: bool,
    pub source: u64,
    pub trigger: u64,
    pub endprep: u64,
}

#[derive(Clone, Copy)]
pub struct Slot {
    pub ballot: u64,
    pub status: u64,
    pub batch: Batch,
    pub vote: Vote,
    pub leader: LeaderBook,
    pub replica: ReplicaBook,
    pub external: bool,
    pub wal_offset: u64,
}

// No vote: at ballot 0, of the empty batch.
pub fn no_vote() -> Vote
    ensures { result ≡ no_vote }
{
    Vote {
        ballot: 0,
        batch: empty_batch(),
    }
}

// A slot that nothing has happened to.
pub fn null_slot() -> Slot
    ensures { result ≡ null_slot }
{
    Slot {
        ballot: 0,
        status: NULL,
        batch: empty_batch(),
        vote: no_vote(),
        leader: LeaderBook {
            present: false,
            trigger: 0,
            endprep: 0,
            prepare_acks: 0,
            prepare_max_bal: 0,
            accept_acks: 0,
            notes: 0,
        },
        replica: ReplicaBook {
            present: false,
            source: 0,
            trigger: 0,
            endprep: 0,
        },
        external: false,
        wal_offset: 0,
    }
}

// A leader's bookkeeping for the slots from trigger to endprep, with nobody heard of yet.
pub fn new_book(trigger: u64, endprep: u64) -> LeaderBook
    ensures { result ≡ new_book trigger endprep }
{
    LeaderBook {
        present: true,
        trigger,
        endprep,
        prepare_acks: 0,
        prepare_max_bal: 0,
        accept_acks: 0,
        notes: 0,
    }
}

impl ReplicaBook {
    // A known book keeps its trigger and endprep and gets the new source.
    pub(crate) fn sourced(self, peer: u64) -> ReplicaBook
        ensures { result ≡ sourced self peer }
    {
        if self.present {
            return ReplicaBook {
                source: peer,
                ..self
            };
        }
        ReplicaBook {
            present: true,
            source: peer,
            trigger: 0,
            endprep: 0,
        }
    }
}

// A slot with one part changed.
impl Slot {
    pub(crate) fn with_state(self, ballot: u64, status: u64) -> Slot
        ensures { result ≡ with_state self ballot status }
    {
        Slot {
            ballot,
            status,
            ..self
        }
    }

    pub(crate) fn with_batch(self, batch: Batch) -> Slot
        ensures { result ≡ with_batch self batch }
    {
        Slot { batch, ..self }
    }

    pub(crate) fn with_vote(self, vote: Vote) -> Slot
        ensures { result ≡ with_vote self vote }
    {
        Slot { vote, ..self }
    }

    pub(crate) fn with_leader(self, book: LeaderBook) -> Slot
        ensures { result ≡ with_leader self book }
    {
        Slot {
            leader: book,
            ..self
        }
    }

    pub(crate) fn with_replica(self, book: ReplicaBook) -> Slot
        ensures { result ≡ with_replica self book }
    {
        Slot {
            replica: book,
            ..self
        }
    }

    pub(crate) fn with_external(mut self) -> Slot
        ensures { result ≡ with_external self }
    {
        self.external = true;
        self
    }

    pub fn with_offset(mut self, offset: u64) -> Slot
        ensures { result ≡ with_offset self offset }
    {
        self.wal_offset = offset;
        self
    }
}

// The record's test.
impl Slot {
    // Whether its counts are within their tables and its member sets within a group.
    // Kept: these tests: what may not change: a host may write any count and any set into the public fields, and `fit_slot` says which are unfit.
    #[tactic(auto, unfolding(crate::specs::Slots::fit_slot))]
    pub fn is_fit(self, group: u64) -> bool
        ensures { result ≡ fit_slot group self }
    {
        self.batch.count <= KEYS
            && self.vote.batch.count <= KEYS
            && members::within(self.leader.prepare_acks, group)
            && members::within(self.leader.accept_acks, group)
            && members::within(self.leader.notes, group)
    }
}

// A slot that a leader did not know at its step-up, appended on a PrepareReply.
pub fn appended_slot(ballot: u64, book: LeaderBook) -> Slot
    ensures { result ≡ appended_slot ballot book }
{
    null_slot().redone(ballot, book)
}

// A slot that an offer appends.
pub fn offered_slot(strict: bool, ballot: u64, batch: Batch) -> Slot
    ensures { result ≡ offered_slot strict ballot batch }
{
    null_slot()
        .with_state(ballot, ACCEPTING)
        .with_external()
        .with_batch(batch)
        .with_leader(new_book(0, 0))
        .own_voted(strict, ballot)
}
