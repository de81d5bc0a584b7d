// What a call makes of a slot.
ghost use Rattle.std.specs.Prelude.{◌≡◌};
ghost use Rattle.slots.specs.Slots.{put_back, prepared_slot, redone_slot, adopted_slot, noted_slot, lacks_note, counted_slot, own_voted, entered_slot, accepted_slot};
ghost use Rattle.slots.specs.Slots.{acknowledged_slot, committed_slot, marked_slot, passed_slot, executed_slot, logged_slot};

use crate::{ACCEPTING, COMMITTED, EXECUTED, LeaderBook, PREPARING, ReplicaBook, Slot, Vote};
use batch::Batch;

impl Slot {
    // The status that Prepare or Accept gives; a strict replica's committed slot keeps its own.
    // Kept: here and below: a status is a number, see `slots::NULL`.
    fn put_back(self, strict: bool, status: u64) -> u64
        ensures { result ≡ put_back strict status self }
    {
        if strict && COMMITTED <= self.status {
            return self.status;
        }
        status
    }

    // Prepare: Preparing at the ballot, with the bookkeeping of who asked.
    pub fn prepared(self, strict: bool, ballot: u64, book: ReplicaBook) -> Slot
        ensures { result ≡ prepared_slot strict ballot book self }
    {
        let status = self.put_back(strict, PREPARING);
        self.with_state(ballot, status).with_replica(book)
    }

    // A step-up: an executed slot stays, a committed one becomes external, any other is prepared anew.
    pub fn redone(mut self, ballot: u64, book: LeaderBook) -> Slot
        ensures { result ≡ redone_slot ballot book self }
    {
        if EXECUTED <= self.status {
            return self;
        }
        if COMMITTED <= self.status {
            return self.with_external();
        }
        self.ballot = ballot;
        self.status = PREPARING;
        self.leader = book;
        self.external = true;
        self
    }

    // PrepareReply: the voted batch replaces the slot's.
    pub fn adopted(mut self, vote: Vote) -> Slot
        ensures { result ≡ adopted_slot vote self }
    {
        self.batch = vote.batch;
        self.leader.prepare_max_bal = vote.ballot;
        self
    }

    // PrepareReply at a strict leader: a member has answered for this slot.
    pub fn noted(mut self, strict: bool, peer: u64) -> Slot
        ensures { result ≡ noted_slot strict peer self }
    {
        if strict {
            self.leader.notes = members::with(self.leader.notes, peer);
        }
        self
    }

    // Whether it is Preparing and a member has not answered for it.
    pub fn lacks_note(self, peer: u64) -> bool
        ensures { result ≡ lacks_note peer self }
    {
        self.status == PREPARING && !members::contains(self.leader.notes, peer)
    }

    // PrepareReply: a member counts, at the trigger slot.
    pub fn counted(mut self, peer: u64) -> Slot
        ensures { result ≡ counted_slot peer self }
    {
        self.leader.prepare_acks = members::with(self.leader.prepare_acks, peer);
        self
    }

    // A strict leader's vote is its own proposal.
    pub(crate) fn own_voted(self, strict: bool, ballot: u64) -> Slot
        ensures { result ≡ own_voted strict ballot self }
    {
        if !strict {
            return self;
        }
        self.with_vote(Vote {
            ballot,
            batch: self.batch,
        })
    }

    // At the quorum a Preparing slot enters Accept, with an accept entry at a ballot.
    pub fn entered(self, strict: bool, ballot: u64) -> Slot
        ensures { result ≡ entered_slot strict ballot self }
    {
        if self.status == PREPARING {
            return self
                .with_state(self.ballot, ACCEPTING)
                .own_voted(strict, ballot);
        }
        self
    }

    // Accept: Accepting at the ballot, with the batch as its own and as its vote.
    pub fn accepted(self, strict: bool, peer: u64, ballot: u64, batch: Batch) -> Slot
        ensures { result ≡ accepted_slot strict peer ballot batch self }
    {
        let status = self.put_back(strict, ACCEPTING);
        self.with_state(ballot, status)
            .with_batch(batch)
            .with_replica(self.replica.sourced(peer))
            .with_vote(Vote { ballot, batch })
    }

    // AcceptReply: a member has accepted.
    pub fn acknowledged(mut self, peer: u64) -> Slot
        ensures { result ≡ acknowledged_slot peer self }
    {
        self.leader.accept_acks = members::with(self.leader.accept_acks, peer);
        self
    }

    // AcceptReply at the quorum.
    pub fn committed(self) -> Slot
        ensures { result ≡ committed_slot self }
    {
        self.with_state(self.ballot, COMMITTED)
    }

    // CommitNotice: what is committed already stays.
    pub fn marked(self) -> Slot
        ensures { result ≡ marked_slot self }
    {
        if COMMITTED <= self.status {
            return self;
        }
        self.committed()
    }

    // As commit_bar passes it, an empty batch needs no execution.
    pub fn passed(self) -> Slot
        ensures { result ≡ passed_slot self }
    {
        if self.batch.id == 0 {
            return self.with_state(self.ballot, EXECUTED);
        }
        self
    }

    // Executed: a Committed slot becomes Executed, other statuses stay.
    pub fn executed(self) -> Slot
        ensures { result ≡ executed_slot self }
    {
        if self.status == COMMITTED {
            return self.with_state(self.ballot, EXECUTED);
        }
        self
    }

    // A log completion: the first offset at which the slot was logged.
    pub fn logged(self, offset: u64) -> Slot
        ensures { result ≡ logged_slot offset self }
    {
        if self.wal_offset == 0 || offset < self.wal_offset {
            return self.with_offset(offset);
        }
        self
    }
}
