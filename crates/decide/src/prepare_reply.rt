// A PrepareReply: its tests, a leader's own, and what it decides from the scalars, its slot and its trigger's.
ghost use Rattle.std.specs.Prelude.{◌≡◌};
ghost use Rattle.decide.specs.PrepareReply.{with_voted, in_log, own_reply};
ghost use Rattle.decide.specs.Weighing.{unmoved, weighed, as_weighed, weighing};

use crate::replies::sent_vote;
use crate::{Refusal, Reply, Scalars, Weighed};
use batch::Batch;
use slots::{Slot, Vote};

impl Reply {
    // The reply with the batch of its vote, as the batch was made.
    pub fn with_voted(self, batch: Batch) -> Reply
        ensures { result ≡ with_voted self batch }
    {
        let vote = Vote { batch, ..self.vote };
        Reply { vote, ..self }
    }

    // Whether the slot lies from trigger to endprep, and the trigger in the log: else 6.
    // Kept: a start and a length, with their test: what may not change: `in_log` takes any of both.
    #[tactic(auto, using(crate::specs::ReplyWays::place_below))]
    pub fn is_in_log(self, start: u64, len: usize) -> bool
        ensures { result ≡ in_log start len self }
    {
        self.trigger <= self.slot
            && self.slot <= self.endprep
            && start <= self.trigger
            && self.trigger - start < len as u64
    }
}

impl Scalars {
    // A leader's reply to itself, for a slot of its own Prepare.
    pub fn own_reply(self, s: Slot, slot: u64) -> Reply
        ensures { result ≡ own_reply self s slot }
    {
        let vote = sent_vote(s);
        Reply {
            slot,
            trigger: s.leader.trigger,
            endprep: s.leader.endprep,
            ballot: s.ballot,
            voted: 0 < s.vote.ballot,
            vote,
            bar: self.accept_bar,
        }
    }

    // The scalars and the two slots as they were.
    fn unmoved(self, s: Slot, t: Slot) -> Weighed
        ensures { as_weighed result ≡ unmoved 0 self s t }
    {
        Weighed {
            noted: false,
            enters: false,
            sc: self,
            slot: s,
            trigger: t,
        }
    }

    // What a PrepareReply decides from the scalars, its slot and its trigger's (the same slot where `own` is true), and whether its member counts.
    // Kept: what may not change: `weighed` (specs/Weighing.antt) takes a second slot also where `own` holds, and `unmoved` hands it back as it was.
    pub fn weigh(
        self,
        s: Slot,
        t: Slot,
        own: bool,
        counts: bool,
        peer: u64,
        m: Reply,
    ) -> Result<Weighed, Refusal>
        ensures { weighing self s t result ≡ weighed self s t own counts peer m }
    {
        if !self.goes_on(s, m.ballot) {
            return Ok(self.unmoved(s, t));
        }
        let v = self.decide_vote(s, m.ballot, m.voted, m.vote)?;
        let base = if own { v.slot } else { t };
        if !counts {
            return Ok(Weighed {
                noted: v.noted,
                enters: false,
                sc: v.sc,
                slot: v.slot,
                trigger: base,
            });
        }
        let d = self.decide_count(base, peer, m.ballot)?;
        let enters = d.sc.is_counted(d.slot);
        Ok(Weighed {
            noted: v.noted,
            enters,
            sc: d.sc,
            slot: v.slot,
            trigger: d.slot,
        })
    }
}
