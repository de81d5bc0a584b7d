// What was decided for one slot, carried out: the key table's 7 and refresh, the actions, the slot, the scalars and the summary.
ghost use Rattle.decide.specs.Decide.{decided};
ghost use Rattle.window.specs.Window.{slot_at};
ghost use Rattle.replica.specs.Record.{settled, summed};
ghost use Rattle.replica.specs.Seen.{seen};
ghost use Rattle.replica.specs.Step.{Told};
ghost use Rattle.replica.specs.Acting.{SettleFits};

use super::{Handled, Refusal, Replica};
use actions::say;
use decide::Decided;
use slots::COMMITTED;
use window::{Summary, Window};

impl Replica {
    // What was decided for the slot at place i of a window.
    // Kept: a rule of the project, here and below: 01 wants "action records in a lent buffer of numbers", and each call is lent that room.
    pub(crate) fn settle(
        mut self,
        room: &mut [u64],
        mut w: Window,
        i: usize,
        slot: u64,
        decision: Result<Decided, decide::Refusal>,
    ) -> Handled
        requires { SettleFits self w i slot (decided self.sc (slot_at w i) decision) room.old }
        ensures { Told (summed (settled self w i slot (decided self.sc (slot_at w i) decision))) (seen result) room.old room.new }
    {
        let d = match decision {
            Ok(d) => d,
            Err(refusal) => return self.refused(Refusal::from(refusal)),
        };
        let s = d.slot;
        let old = self.keys;
        // Kept: what may not change: `noting` promises 7 where the table has too few free keys, and fixed memory has 256.
        if old.too_many(d.noted, s.batch) {
            return self.refused(Refusal::KeysFull);
        }
        let n = say(room, 0, d.says, d.keys);
        let before = w.slots[i];
        w.slots[i] = s;
        self.window = w;
        let sc = d.sc;
        self.sc = sc;
        self.keys = old.note_if(d.noted, slot, s.batch);
        let known = self.summary;
        let sum = known.changed(sc.commit_bar, slot, before.status, s.status);
        self.summary = sum;
        if !known.is_passed(slot, s.status) {
            return Handled {
                outcome: Ok(n),
                replica: self,
            };
        }
        let open = w.stop(i, w.len, 0, COMMITTED);
        let first = sc.start + open as u64;
        self.summary = Summary { first, ..sum };
        Handled {
            outcome: Ok(n),
            replica: self,
        }
    }
}
