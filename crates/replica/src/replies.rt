// 000, messages.rs: PrepareReply. Everything is decided before the first action is written.
ghost use Rattle.std.specs.Prelude.{◌≡◌, length};
ghost use Rattle.replica.specs.Record.{summed};
ghost use Rattle.replica.specs.Seen.{seen};
ghost use Rattle.replica.specs.Messages.{is_elsewhere, reply_on};
ghost use Rattle.replica.specs.Step.{call_prepare_reply, step, Told};
ghost use Rattle.replica.specs.Replying.{reply_at, ReplyFits, PlacesFit};

use super::{Handled, Refusal, Replica};
use batch::{empty_batch, make};
use decide::{Reply, Scalars};
use slots::{PREPARING, new_book};
use window::{SLOTS, Summary, larger_of, put_promises};

// Whether a strict leader ignores a reply: it names another trigger.
fn is_elsewhere(sc: Scalars, m: Reply) -> bool
    ensures { result ≡ is_elsewhere sc m }
{
    if !sc.strict() {
        return false;
    }
    m.trigger != sc.lead_trigger
}

impl Replica {
    // A PrepareReply from a peer.
    // Kept: a rule of the project, here and below: 01 wants "action records in a lent buffer of numbers", and each call is lent that room.
    pub fn prepare_reply(self, room: &mut [u64], peer: u64, m: Reply) -> Handled
        ensures { Told (step self (length room.old) (call_prepare_reply peer m)) (seen result) room.old room.new }
    {
        if let Err(refusal) = self.from_peer(room.len(), peer) {
            return self.refused(refusal);
        }
        let raw = m.vote.batch;
        let made = make(raw.id, raw.count, raw.keys);
        if m.voted && made.is_none() {
            return self.refused(Refusal::Outside);
        }
        if m.slot < self.sc.start {
            return self.ignored();
        }
        let clean = m.with_voted(made.unwrap_or(empty_batch()));
        self.reply_on(room, peer, clean)
    }

    // From the test of the ballot on: also a leader's own log completion.
    pub(crate) fn reply_on(self, room: &mut [u64], peer: u64, m: Reply) -> Handled
        requires { ReplyFits self room.old m }
        ensures { Told (summed (reply_on self peer m)) (seen result) room.old room.new }
    {
        let sc = self.sc;
        if m.ballot != sc.bal_prep_sent {
            return self.ignored();
        }
        if !sc.leads() {
            return self.refused(Refusal::PastEnd);
        }
        if is_elsewhere(sc, m) {
            return self.ignored();
        }
        let w = self.window;
        if !m.is_in_log(sc.start, w.len) {
            return self.refused(Refusal::Contradiction);
        }
        let j = (m.trigger - sc.start) as usize;
        let t = w.slots[j];
        if !t.leader.present {
            return self.ignored();
        }
        // Kept: what may not change: a slot past the window is promised 5, after the tests above it (`reply_on` of specs/Messages).
        let end = sc.start + SLOTS as u64;
        if end <= m.slot {
            return self.refused(Refusal::PastWindow);
        }
        let i = (m.slot - sc.start) as usize;
        self.reply_at(room, peer, m, i, j)
    }

    // The slot at place i, its trigger at place j.
    fn reply_at(mut self, room: &mut [u64], peer: u64, m: Reply, i: usize, j: usize) -> Handled
        requires { PlacesFit self room.old i j }
        ensures { Told (summed (reply_at self peer m i j)) (seen result) room.old room.new }
    {
        let sc = self.sc;
        let bars = self.bars;
        let old = self.window;
        let len = old.len;
        let known = old.slots[j];
        let trigger = sc.start + j as u64;
        let book = new_book(trigger, known.leader.endprep);
        let end = i + 1;
        let mut w = old.append(end, sc.bal_prep_sent, book);
        let strict = sc.strict();
        let s = w.slots[i].noted(strict, peer);
        w.slots[i] = s;
        let t = w.slots[j];
        let fallen = bars.with_fallen(sc, peer, m.bar);
        let counts = w.counts(fallen, j, peer, m);
        let own = i == j;
        let g = match fallen.weigh(s, t, own, counts, peer, m) {
            Ok(g) => g,
            Err(refusal) => return self.refused(Refusal::from(refusal)),
        };
        let batch = g.slot.batch;
        let keys = self.keys;
        // Kept: what may not change: `voted_on` promises 7 where the table has too few free keys, and fixed memory has 256.
        if keys.too_many(g.noted, batch) {
            return self.refused(Refusal::KeysFull);
        }
        let k = put_promises(room, 0, len, end, sc.start, sc.bal_prep_sent);
        w.slots[i] = g.slot;
        w.slots[j] = g.trigger;
        self.sc = g.sc;
        self.bars = bars.with_bar(sc, peer, m.bar);
        self.keys = keys.note_if(g.noted, m.slot, batch);
        // most replies make no quorum: no slot enters Accept, and the summary stands
        if !g.enters {
            self.window = w;
            return Handled {
                outcome: Ok(k),
                replica: self,
            };
        }
        let to = w.len;
        let p = w.enter_range(room, k, j, to, sc.start, strict, m.ballot);
        self.window = p.window;
        let bar = (sc.commit_bar - sc.start) as usize;
        let low = larger_of(j, bar);
        let more = w.count_at(PREPARING, low, to);
        let known = self.summary;
        let accepting = known.accepting + more;
        self.summary = Summary { accepting, ..known };
        Handled {
            outcome: Ok(p.next),
            replica: self,
        }
    }
}
