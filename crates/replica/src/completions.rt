// 002, durability.rs: log completions.
ghost use Rattle.std.specs.Prelude.{◌≡◌, [], ◌<◌, length};
ghost use Rattle.base.specs.Pick.{pick};
ghost use Rattle.window.specs.Window.{slot_at};
ghost use Rattle.window.specs.Sweeps.{TwoFit};
ghost use Rattle.replica.specs.Seen.{seen};
ghost use Rattle.replica.specs.Record.{summed};
ghost use Rattle.replica.specs.Durability.{notice_acts, prepared_done, moved_accept, accepted_done, pass_on, committed_done, done_on, logged_on};
ghost use Rattle.replica.specs.Step.{call_logged, step, Told};
ghost use Rattle.replica.specs.CompletionFits.{BarsFit, CommitFits, DoneFits, PassFits, Wrote};

use super::{Done, Entry, Handled, Refusal, Replica};
use actions::{Action, Notice, put_action};
use decide::Scalars;
use slots::{ACCEPTING, COMMITTED};

// Kept: what may not change, here and in the other files: theorems of specs/ speak of the records that private functions demand (`own_fits` of
// `DoneFits`, `prepare_told` of `PrepareFits` ..), so those keep the fields that more of them have (`3456 ≤ length room`, `within`, `sum`).
// The CommitNotice, at the room's n-th place, where commit_bar moved. The place of the next action.
// Kept: a rule of the project, here and below: a room and a place, since 01 wants "action records in a lent buffer of numbers", lent to each call.
fn put_notice(room: &mut [u64], n: usize, still: bool, sc: Scalars, bar: u64, end: u64) -> usize
    requires { TwoFit n room.old }
    ensures { Wrote (pick still [] (notice_acts sc bar end)) n room.old result room.new }
{
    if still {
        return n;
    }
    if !sc.notifies(bar, end) {
        return n;
    }
    let notice = Action::CommitNotice(Notice {
        ballot: sc.bal_max_seen,
        bar,
    });
    put_action(room, n, notice, [0u64; 8]);
    n + 1
}

impl Replica {
    // A log completion.
    pub fn logged(self, room: &mut [u64], done: Done) -> Handled
        ensures { Told (step self (length room.old) (call_logged done)) (seen result) room.old room.new }
    {
        if let Err(refusal) = self.test_ready(room.len()) {
            return self.refused(refusal);
        }
        let sc = self.sc;
        if done.slot < sc.start {
            return self.ignored();
        }
        let end = sc.start + self.window.len as u64;
        if end <= done.slot {
            return self.refused(Refusal::PastEnd);
        }
        if done.size < sc.wal_offset {
            return self.refused(Refusal::Contradiction);
        }
        let i = (done.slot - sc.start) as usize;
        let r = self.logged_on(i, done.size);
        let h = r.done_on(room, i, done.slot, done.ballot, done.entry);
        if let Err(error) = h.outcome {
            return self.refused(error);
        }
        h
    }

    // The slot's first offset in the log, then the size of the log.
    fn logged_on(mut self, i: usize, size: u64) -> Replica
        requires { i < 64 }
        ensures { result ≡ logged_on self i size }
    {
        let sc = self.sc;
        self.window.slots[i] = self.window.slots[i].logged(sc.wal_offset);
        self.sc = sc.with_offset(size);
        self
    }

    // The entry's handler, for the slot at place i.
    fn done_on(self, room: &mut [u64], i: usize, slot: u64, ballot: u64, entry: Entry) -> Handled
        requires { DoneFits self i slot room.old }
        ensures { Told (summed (done_on self i slot ballot entry)) (seen result) room.old room.new }
    {
        match entry {
            Entry::PrepareBal => self.prepared_done(room, i, slot, ballot),
            Entry::AcceptData => self.accepted_done(room, i, slot, ballot),
            Entry::CommitSlot => self.committed_done(room, slot),
        }
    }

    // A PrepareBal is logged: a leader answers itself for slots up to its endprep, a follower the source.
    fn prepared_done(self, room: &mut [u64], i: usize, slot: u64, ballot: u64) -> Handled
        requires { DoneFits self i slot room.old }
        ensures { Told (summed (prepared_done self i slot ballot (slot_at self.window i))) (seen result) room.old room.new }
    {
        let sc = self.sc;
        let w = self.window;
        let s = w.slots[i];
        if sc.is_stale(s, ballot, false) {
            return self.ignored();
        }
        if sc.leader != sc.id {
            let d = sc.decide_promised(s, slot);
            return self.settle(room, w, i, slot, Ok(d));
        }
        if !s.leader.present {
            return self.ignored();
        }
        if s.leader.endprep < slot {
            return self.ignored();
        }
        let m = sc.own_reply(s, slot);
        self.reply_on(room, sc.id, m)
    }

    // An AcceptData is logged: a vote, told to the leader or counted by it, and accept_bar moves.
    fn accepted_done(self, room: &mut [u64], i: usize, slot: u64, ballot: u64) -> Handled
        requires { DoneFits self i slot room.old }
        ensures { Told (summed (accepted_done self i slot ballot (slot_at self.window i))) (seen result) room.old room.new }
    {
        let sc = self.sc;
        let w = self.window;
        let s = w.slots[i];
        let d = sc.decide_accepted(s, slot, ballot);
        let h = self.settle(room, w, i, slot, d);
        let Ok(count) = h.outcome else {
            return h;
        };
        Handled {
            outcome: Ok(count),
            replica: h.replica.moved_accept(slot),
        }
    }

    // accept_bar moves to the first slot below Accepting, where the slot logged stands at it.
    fn moved_accept(mut self, slot: u64) -> Replica
        requires { BarsFit self }
        ensures { result ≡ moved_accept self slot }
    {
        let sc = self.sc;
        if slot != sc.accept_bar {
            return self;
        }
        let w = self.window;
        let from = (sc.accept_bar - sc.start) as usize;
        let stop = w.stop(from, w.len, 0, ACCEPTING);
        let bar = sc.start + stop as u64;
        self.sc = sc.with_bars(bar, sc.commit_bar, sc.exec_bar);
        self
    }

    // A CommitSlot is logged: commit_bar moves to the first slot below Committed, where the slot logged stands at it.
    fn committed_done(self, room: &mut [u64], slot: u64) -> Handled
        requires { CommitFits self room.old }
        ensures { Told (summed (committed_done self slot)) (seen result) room.old room.new }
    {
        let sc = self.sc;
        if slot != sc.commit_bar {
            return self.ignored();
        }
        let w = self.window;
        let from = (sc.commit_bar - sc.start) as usize;
        let to = (sc.accept_bar - sc.start) as usize;
        let stop = w.stop(from, to, 0, COMMITTED);
        self.pass_on(room, from, stop)
    }

    // commit_bar walks from one place to another: the slots it passes, then the notice.
    fn pass_on(mut self, room: &mut [u64], from: usize, stop: usize) -> Handled
        requires { PassFits self from stop room.old }
        ensures { Told (summed (pass_on self from stop)) (seen result) room.old room.new }
    {
        let sc = self.sc;
        let w = self.window;
        let bar = sc.start + stop as u64;
        let end = sc.start + w.len as u64;
        let p = w.pass_range(room, 0, from, stop, sc.start);
        let n = put_notice(room, p.next, from == stop, sc, bar, end);
        self.window = p.window;
        self.sc = sc.with_bars(sc.accept_bar, bar, sc.exec_bar);
        Handled {
            outcome: Ok(n),
            replica: self,
        }
    }
}
