// 000, messages.rs: Prepare, Accept, AcceptReply. PrepareReply has a file of its own.
ghost use Rattle.std.specs.Prelude.{◌≤◌, length};
ghost use Rattle.replica.specs.Record.{summed};
ghost use Rattle.replica.specs.Seen.{seen};
ghost use Rattle.replica.specs.Messages.{prepare_on};
ghost use Rattle.replica.specs.Step.{call_prepare, call_accept, call_accept_reply, step, Told};
ghost use Rattle.replica.specs.MessageFits.{WroteDown, PrepareFits};

use super::{Handled, Refusal, Replica};
use actions::{Action, put_action};
use batch::{Batch, make};
use decide::Scalars;
use slots::{ACCEPTING, ReplicaBook};
use window::{SLOTS, Window, larger_of};

// check_leader: a leader that hears a larger ballot first reports that it is none. The place of the next action.
// Kept: a rule of the project, here and below: 01 wants "action records in a lent buffer of numbers", and each call is lent that room.
fn put_down(room: &mut [u64], sc: Scalars, ballot: u64) -> usize
    requires { 3456 ≤ length room.old }
    ensures { WroteDown sc ballot room.old result room.new }
{
    if !sc.steps_down(ballot) {
        return 0;
    }
    put_action(room, 0, Action::StatusDown, [0u64; 8]);
    1
}

impl Replica {
    // A Prepare from a peer.
    pub fn prepare(self, room: &mut [u64], peer: u64, trigger: u64, ballot: u64) -> Handled
        ensures { Told (step self (length room.old) (call_prepare peer trigger ballot)) (seen result) room.old room.new }
    {
        if let Err(refusal) = self.from_owner(room.len(), peer, ballot) {
            return self.refused(refusal);
        }
        let sc = self.sc;
        if trigger < sc.start {
            return self.ignored();
        }
        if ballot < sc.bal_max_seen {
            return self.ignored();
        }
        // Kept: what may not change, here and below: a slot past the window is promised 5 (`prepare_step`, `accept_step`).
        if sc.start + SLOTS as u64 <= trigger {
            return self.refused(Refusal::PastWindow);
        }
        let from = (trigger - sc.start) as usize;
        let old = self.window;
        let w = old.grow_to(from + 1);
        self.prepare_on(room, w, from, peer, ballot)
    }

    // The slots from a place of the grown window on: 6 where one has a larger ballot.
    fn prepare_on(
        mut self,
        room: &mut [u64],
        w: Window,
        from: usize,
        peer: u64,
        ballot: u64,
    ) -> Handled
        requires { PrepareFits self w from room.old }
        ensures { Told (summed (prepare_on self w from peer ballot)) (seen result) room.old room.new }
    {
        let last = w.last_used();
        let top = larger_of(from, last);
        let end = top + 1;
        if w.any_above(from, end, ballot) {
            return self.refused(Refusal::Contradiction);
        }
        let sc = self.sc;
        let trigger = sc.start + from as u64;
        let endprep = sc.start + top as u64;
        let book = ReplicaBook {
            present: true,
            source: peer,
            trigger,
            endprep,
        };
        let k = put_down(room, sc, ballot);
        let strict = sc.strict();
        let p = w.prepare_range(room, k, from, end, sc.start, strict, ballot, book);
        self.window = p.window;
        self.sc = sc.followed(peer, ballot);
        let bar = (sc.commit_bar - sc.start) as usize;
        let below = w.count_at(ACCEPTING, bar, from);
        self.summary = self.summary.prepared_from(strict, trigger, below);
        Handled {
            outcome: Ok(p.next),
            replica: self,
        }
    }

    // An Accept from a peer.
    pub fn accept(
        self,
        room: &mut [u64],
        peer: u64,
        slot: u64,
        ballot: u64,
        batch: Batch,
    ) -> Handled
        ensures { Told (step self (length room.old) (call_accept peer slot ballot batch)) (seen result) room.old room.new }
    {
        if let Err(refusal) = self.from_owner(room.len(), peer, ballot) {
            return self.refused(refusal);
        }
        let Some(clean) = make(batch.id, batch.count, batch.keys) else {
            return self.refused(Refusal::Outside);
        };
        let sc = self.sc;
        if slot < sc.start {
            return self.ignored();
        }
        if ballot < sc.bal_max_seen {
            return self.ignored();
        }
        if sc.start + SLOTS as u64 <= slot {
            return self.refused(Refusal::PastWindow);
        }
        let i = (slot - sc.start) as usize;
        let old = self.window;
        let w = old.grow_to(i + 1);
        let s = w.slots[i];
        let d = sc.decide_accept(s, peer, slot, ballot, clean);
        self.settle(room, w, i, slot, d)
    }

    // An AcceptReply from a peer.
    pub fn accept_reply(self, room: &mut [u64], peer: u64, slot: u64, ballot: u64) -> Handled
        ensures { Told (step self (length room.old) (call_accept_reply peer slot ballot)) (seen result) room.old room.new }
    {
        if let Err(refusal) = self.from_peer(room.len(), peer) {
            return self.refused(refusal);
        }
        let sc = self.sc;
        if slot < sc.start {
            return self.ignored();
        }
        if ballot != sc.bal_prepared {
            return self.ignored();
        }
        let w = self.window;
        let end = sc.start + w.len as u64;
        if end <= slot {
            return self.refused(Refusal::PastEnd);
        }
        let i = (slot - sc.start) as usize;
        let s = w.slots[i];
        let d = sc.decide_accept_reply(s, peer, slot, ballot);
        self.settle(room, w, i, slot, d)
    }
}
