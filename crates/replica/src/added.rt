// 01, "Added calls": offer and executed.
ghost use Rattle.std.specs.Prelude.{◌≡◌, length};
ghost use Rattle.replica.specs.Added.{moved_exec};
ghost use Rattle.replica.specs.Seen.{seen};
ghost use Rattle.replica.specs.Step.{call_offer, call_executed, step, Told};
ghost use Rattle.replica.specs.AddedFits.{ExecFits};

use super::{Handled, Refusal, Replica};
use batch::{Batch, make};
use window::{SLOTS, Window};

impl Replica {
    // A batch is offered to the leader: it takes the slot at the log end.
    // Kept: a rule of the project, here and below: 01 wants "action records in a lent buffer of numbers", and each call is lent that room.
    pub fn offer(self, room: &mut [u64], batch: Batch) -> Handled
        ensures { Told (step self (length room.old) (call_offer batch)) (seen result) room.old room.new }
    {
        if let Err(refusal) = self.test_ready(room.len()) {
            return self.refused(refusal);
        }
        let Some(clean) = make(batch.id, batch.count, batch.keys) else {
            return self.refused(Refusal::Outside);
        };
        let sc = self.sc;
        if !sc.may_offer() {
            return self.refused(Refusal::NotLeading);
        }
        let old = self.window;
        let len = old.len;
        // Kept: what may not change: `offer` promises 5 of a full window (`offer_step`).
        if SLOTS <= len {
            return self.refused(Refusal::PastWindow);
        }
        let slot = sc.start + len as u64;
        let w = old.grow_to(len + 1);
        let d = sc.decide_offer(slot, clean);
        self.settle(room, w, len, slot, Ok(d))
    }

    // A window taken, and exec_bar moved over its Executed slots below commit_bar.
    fn moved_exec(self, window: Window) -> Replica
        requires { ExecFits self }
        ensures { result ≡ moved_exec self window }
    {
        let sc = self.sc;
        let from = (sc.exec_bar - sc.start) as usize;
        let to = (sc.commit_bar - sc.start) as usize;
        let stop = window.executed_to(from, to);
        let bar = sc.start + stop as u64;
        Replica {
            sc: sc.with_bars(sc.accept_bar, sc.commit_bar, bar),
            window,
            ..self
        }
    }

    // The host has executed the batch of a slot.
    pub fn executed(self, room: &mut [u64], slot: u64) -> Handled
        ensures { Told (step self (length room.old) (call_executed slot)) (seen result) room.old room.new }
    {
        if let Err(refusal) = self.test_ready(room.len()) {
            return self.refused(refusal);
        }
        let sc = self.sc;
        if slot < sc.start {
            return self.ignored();
        }
        let mut w = self.window;
        let end = sc.start + w.len as u64;
        if end <= slot {
            return self.refused(Refusal::PastEnd);
        }
        let at = (slot - sc.start) as usize;
        w.slots[at] = w.slots[at].executed();
        let moved = self.moved_exec(w);
        moved.ignored()
    }
}
