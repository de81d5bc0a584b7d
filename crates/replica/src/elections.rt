// 001, leadership.rs: a timeout (become_a_leader) and CommitNotice (advance_commit_bar).
ghost use Rattle.std.specs.Prelude.{length};
ghost use Rattle.std.specs.declared.option.Option.TheVariants.{Some};
ghost use Rattle.replica.specs.Record.{summed};
ghost use Rattle.replica.specs.Seen.{seen};
ghost use Rattle.replica.specs.Leadership.{lead_on, step_up, mark_on};
ghost use Rattle.replica.specs.Step.{call_commit_notice, call_timeout, step, Told};
ghost use Rattle.replica.specs.ElectionFits.{StepFits, LeadFits, MarkFits};

use super::{Handled, Refusal, Replica};
use actions::{Action, Ask, put_action};
use decide::unknown_bars;
use members::next_ballot;
use slots::{ACCEPTING, COMMITTED, new_book};
use window::{SLOTS, Summary, Window};

impl Replica {
    // A timeout of the timer for `source`.
    // Kept: a rule of the project, here and below: 01 wants "action records in a lent buffer of numbers", and each call is lent that room.
    pub fn timeout(self, room: &mut [u64], source: u64) -> Handled
        ensures { Told (step self (length room.old) (call_timeout source)) (seen result) room.old room.new }
    {
        if let Err(refusal) = self.from_member(room.len(), source) {
            return self.refused(refusal);
        }
        let sc = self.sc;
        if sc.ignores_timeout(source) {
            return self.ignored();
        }
        let Some(ballot) = next_ballot(sc.bal_max_seen, sc.id) else {
            return self.refused(Refusal::NoStepUp);
        };
        self.step_up(room, ballot)
    }

    // 8 and 5, then the trigger slot is there: the first open one, as the summary has it.
    fn step_up(self, room: &mut [u64], ballot: u64) -> Handled
        requires { StepFits self self.window room.old }
        ensures { Told (summed (step_up self (Some ballot))) (seen result) room.old room.new }
    {
        let sc = self.sc;
        let old = self.window;
        let trigger = self.summary.first;
        if trigger < sc.exec_bar {
            return self.refused(Refusal::NoStepUp);
        }
        let open = (trigger - sc.start) as usize;
        // Kept: what may not change, here and below: a slot past the window is promised 5 (`step_up`, `commit_notice_step`), since the window is fixed.
        if SLOTS <= open {
            return self.refused(Refusal::PastWindow);
        }
        let last = old.last_open();
        let endprep = sc.start + last as u64;
        let size = open + 1;
        let w = old.grow_to(size);
        self.lead_on(room, w, trigger, endprep, ballot)
    }

    // Status up, heartbeat, PrepareBal by rising slot, Prepare; self leads at the ballot.
    fn lead_on(
        mut self,
        room: &mut [u64],
        w: Window,
        trigger: u64,
        endprep: u64,
        ballot: u64,
    ) -> Handled
        requires { LeadFits self w trigger room.old }
        ensures { Told (summed (lead_on self w trigger endprep ballot)) (seen result) room.old room.new }
    {
        put_action(room, 0, Action::StatusUp, [0u64; 8]);
        put_action(room, 1, Action::Heartbeat, [0u64; 8]);
        let sc = self.sc;
        let from = (sc.exec_bar - sc.start) as usize;
        let book = new_book(trigger, endprep);
        let p = w.redo_range(room, 2, from, w.len, sc.start, ballot, book);
        let n = p.next;
        put_action(room, n, Action::Prepare(Ask { trigger, ballot }), [0u64; 8]);
        let count = n + 1;
        self.window = p.window;
        self.sc = sc.stepped_up(trigger, ballot);
        self.bars = unknown_bars(self.bars.own);
        self.summary = Summary {
            first: trigger,
            accepting: 0,
        };
        Handled {
            outcome: Ok(count),
            replica: self,
        }
    }

    // A CommitNotice: the slots below the told bar are there, and marked up to the first that may not be.
    pub fn commit_notice(self, room: &mut [u64], peer: u64, ballot: u64, bar: u64) -> Handled
        ensures { Told (step self (length room.old) (call_commit_notice peer ballot bar)) (seen result) room.old room.new }
    {
        if let Err(refusal) = self.from_owner(room.len(), peer, ballot) {
            return self.refused(refusal);
        }
        let sc = self.sc;
        if ballot != sc.bal_max_seen {
            return self.ignored();
        }
        if bar <= sc.commit_bar {
            return self.ignored();
        }
        let past = sc.start + SLOTS as u64;
        if past < bar {
            return self.refused(Refusal::PastWindow);
        }
        let from = (sc.commit_bar - sc.start) as usize;
        let to = (bar - sc.start) as usize;
        let old = self.window;
        let w = old.grow_to(to);
        let stop = w.stop(from, to, ballot, ACCEPTING);
        self.mark_on(room, w, from, stop)
    }

    // The slots from one place up to another marked, with their entries.
    fn mark_on(mut self, room: &mut [u64], w: Window, from: usize, stop: usize) -> Handled
        requires { MarkFits self w from stop room.old }
        ensures { Told (summed (mark_on self w from stop)) (seen result) room.old room.new }
    {
        let p = w.mark_range(room, 0, from, stop, self.sc.start);
        let window = p.window;
        self.window = window;
        let count = p.next;
        let known = self.summary;
        let left = known.accepting - count as u64;
        let at = (known.first - self.sc.start) as usize;
        let open = window.stop(at, window.len, 0, COMMITTED);
        let first = self.sc.start + open as u64;
        self.summary = Summary {
            first,
            accepting: left,
        };
        Handled {
            outcome: Ok(count),
            replica: self,
        }
    }
}
