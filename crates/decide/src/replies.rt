// What a call decides from the scalars and one slot.
ghost use Rattle.std.specs.Prelude.{◌≡◌};
ghost use Rattle.base.specs.Pick.{pick};
ghost use Rattle.decide.specs.Scalars.{steps_down};
ghost use Rattle.decide.specs.Decide.{as_done, decided, silent, proposal, names_other, decide_accept, awaits_accept, decide_accept_reply, awaits_prepare, goes_on, decide_vote};
ghost use Rattle.decide.specs.Decide.{is_counted, decide_count, sent_vote, decide_promised, is_stale, decide_accepted, may_offer, decide_offer};
ghost use Rattle.decide.specs.Ways.{contradicted};

use crate::{Decided, Refusal, Scalars};
use actions::{Accepted, Action, Mark, Promised, Proposal, Says};
use batch::Batch;
use slots::{ACCEPTING, COMMITTED, PREPARING, Slot, Vote};

// The content of an AcceptData entry and of an Accept.
pub(crate) fn proposal(slot: u64, ballot: u64, b: Batch) -> Proposal
    ensures { result ≡ proposal slot ballot b }
{
    Proposal {
        slot,
        ballot,
        batch: b.id,
        count: b.count,
    }
}

// The vote that a reply tells: none where its ballot is 0.
pub(crate) fn sent_vote(s: Slot) -> Vote
    ensures { result ≡ sent_vote s }
{
    if s.vote.ballot == 0 {
        return slots::no_vote();
    }
    s.vote
}

// Whether a PrepareReply is neither a duplicate nor outdated.
// Kept: here and below: a status is a number, see `slots::NULL`.
pub(crate) fn awaits_prepare(s: Slot, ballot: u64) -> bool
    ensures { result ≡ awaits_prepare s ballot }
{
    s.status == PREPARING && s.ballot <= ballot
}

impl Scalars {
    // Nothing is said: ignored, or only noted.
    fn silent(self, s: Slot) -> Decided
        ensures { as_done result ≡ silent 0 self s }
    {
        Decided {
            noted: false,
            sc: self,
            slot: s,
            says: Says::Nothing,
            keys: [0; 8],
        }
    }

    // An action, after the report of a leader that it is none where the ballot makes it so.
    fn reported(self, ballot: u64, a: Action) -> Says
        ensures { result ≡ pick (steps_down self ballot) (Says.Two Action.StatusDown a) (Says.One a) }
    {
        if self.steps_down(ballot) {
            return Says::Two(Action::StatusDown, a);
        }
        Says::One(a)
    }

    // Whether an assertion on a reply fails: the slot's ballot, the largest seen, and where one is needed the leader's book.
    #[tactic(auto, unfolding(crate::specs::Ways::contradicted))]
    fn contradicts(self, s: Slot, ballot: u64, booked: bool) -> bool
        ensures { result ≡ contradicted self s ballot booked }
    {
        s.ballot != ballot || self.bal_max_seen < ballot || booked && !s.leader.present
    }

    // Whether an Accept names another batch for a strict replica's committed slot.
    fn names_other(self, s: Slot, b: Batch) -> bool
        ensures { result ≡ names_other self s b }
    {
        if !self.strict() {
            return false;
        }
        if s.status < COMMITTED {
            return false;
        }
        s.batch != b
    }

    // An Accept whose ballot is not smaller than what was seen.
    pub fn decide_accept(
        self,
        s: Slot,
        peer: u64,
        slot: u64,
        ballot: u64,
        b: Batch,
    ) -> Result<Decided, Refusal>
        ensures { decided self s result ≡ decide_accept self s peer slot ballot b }
    {
        if self.names_other(s, b) {
            return Err(Refusal::Renamed);
        }
        if ballot < s.ballot {
            return Err(Refusal::Contradiction);
        }
        let says = self.reported(ballot, Action::AcceptData(proposal(slot, ballot, b)));
        let after = self.followed(peer, ballot);
        let taken = s.accepted(self.strict(), peer, ballot, b);
        let keys = b.keys;
        Ok(Decided {
            noted: true,
            sc: after,
            slot: taken,
            says,
            keys,
        })
    }

    // Whether an AcceptReply is neither a duplicate nor outdated.
    fn awaits_accept(self, s: Slot, ballot: u64) -> bool
        ensures { result ≡ awaits_accept self s ballot }
    {
        self.leader == self.id && s.status == ACCEPTING && s.ballot <= ballot
    }

    // An AcceptReply at a ballot that is bal_prepared.
    pub fn decide_accept_reply(
        self,
        s: Slot,
        peer: u64,
        slot: u64,
        ballot: u64,
    ) -> Result<Decided, Refusal>
        ensures { decided self s result ≡ decide_accept_reply self s peer slot ballot }
    {
        if !self.awaits_accept(s, ballot) {
            return Ok(self.silent(s));
        }
        if self.contradicts(s, ballot, true) {
            return Err(Refusal::Contradiction);
        }
        if members::contains(s.leader.accept_acks, peer) {
            return Ok(self.silent(s));
        }
        let known = s.acknowledged(peer);
        if members::count(known.leader.accept_acks) < self.quorum() {
            return Ok(self.silent(known));
        }
        let done = known.committed();
        Ok(Decided {
            noted: false,
            sc: self,
            slot: done,
            says: Says::One(Action::CommitSlot(Mark {
                slot,
                ballot: s.ballot,
            })),
            keys: [0; 8],
        })
    }

    // The vote of a PrepareReply replaces only on a strictly larger ballot.
    // Kept: what may not change: `decide_vote` (specs/Decide.antt) takes a vote also where none is present, as it stands in `Reply.vote` beside `Reply.voted`.
    pub(crate) fn decide_vote(
        self,
        s: Slot,
        ballot: u64,
        voted: bool,
        v: Vote,
    ) -> Result<Decided, Refusal>
        ensures { decided self s result ≡ decide_vote self s ballot voted v }
    {
        if !awaits_prepare(s, ballot) {
            return Ok(self.silent(s));
        }
        if self.contradicts(s, ballot, voted) {
            return Err(Refusal::Contradiction);
        }
        if !voted {
            return Ok(self.silent(s));
        }
        if v.ballot <= s.leader.prepare_max_bal {
            return Ok(self.silent(s));
        }
        let taken = s.adopted(v);
        Ok(Decided {
            noted: true,
            sc: self,
            slot: taken,
            says: Says::Nothing,
            keys: [0; 8],
        })
    }

    // Whether a PrepareReply is awaited, or its member may count all the same.
    pub(crate) fn goes_on(self, s: Slot, ballot: u64) -> bool
        ensures { result ≡ goes_on self s ballot }
    {
        self.strict() || awaits_prepare(s, ballot)
    }

    // Whether a quorum of members is counted at the trigger slot.
    pub(crate) fn is_counted(self, t: Slot) -> bool
        ensures { result ≡ is_counted self t }
    {
        self.quorum() <= members::count(t.leader.prepare_acks)
    }

    // A member counts at the trigger slot; at the quorum the ballot is prepared.
    pub(crate) fn decide_count(self, t: Slot, peer: u64, ballot: u64) -> Result<Decided, Refusal>
        ensures { decided self t result ≡ decide_count self t peer ballot }
    {
        let more = t.counted(peer);
        if !self.is_counted(more) {
            return Ok(self.silent(more));
        }
        if ballot < self.bal_prepared {
            return Err(Refusal::Contradiction);
        }
        Ok(self.with_prepared(ballot).silent(more))
    }

    // A follower's PrepareBal is logged: a PrepareReply to the source, at the slot's ballot.
    pub fn decide_promised(self, s: Slot, slot: u64) -> Decided
        ensures { as_done result ≡ decide_promised self s slot }
    {
        if !s.replica.present {
            return self.silent(s);
        }
        let vote = sent_vote(s);
        let batch = vote.batch;
        let keys = batch.keys;
        Decided {
            noted: false,
            sc: self,
            slot: s,
            says: Says::One(Action::PrepareReply(Promised {
                member: s.replica.source,
                slot,
                trigger: s.replica.trigger,
                endprep: s.replica.endprep,
                ballot: s.ballot,
                voted: vote.ballot,
                batch: batch.id,
                count: batch.count,
                bar: self.accept_bar,
            })),
            keys,
        }
    }

    // Whether a strict replica is silent on a completion: its ballot is not the slot's, or for an accept entry not the vote's.
    pub fn is_stale(self, s: Slot, ballot: u64, of_accept: bool) -> bool
        ensures { result ≡ is_stale self s ballot of_accept }
    {
        self.strict() && (s.ballot != ballot || of_accept && s.vote.ballot != ballot)
    }

    // An AcceptData is logged: a leader's own reply, or an AcceptReply to the source.
    pub fn decide_accepted(self, s: Slot, slot: u64, ballot: u64) -> Result<Decided, Refusal>
        ensures { decided self s result ≡ decide_accepted self s slot ballot }
    {
        if self.is_stale(s, ballot, true) {
            return Ok(self.silent(s));
        }
        if self.leader == self.id {
            if s.ballot == self.bal_prepared {
                return self.decide_accept_reply(s, self.id, slot, s.ballot);
            }
            return Ok(self.silent(s));
        }
        if !s.replica.present {
            return Ok(self.silent(s));
        }
        Ok(Decided {
            noted: false,
            sc: self,
            slot: s,
            says: Says::One(Action::AcceptReply(Accepted {
                member: s.replica.source,
                slot,
                ballot: s.ballot,
            })),
            keys: [0; 8],
        })
    }

    // Whether a batch may be offered (9).
    pub fn may_offer(self) -> bool
        ensures { result ≡ may_offer self }
    {
        self.leader == self.id && self.bal_prepared != 0 && self.bal_prepared == self.bal_prep_sent
    }

    // An offer: a slot in Accepting at bal_prepared, an AcceptData and an Accept.
    pub fn decide_offer(self, slot: u64, b: Batch) -> Decided
        ensures { as_done result ≡ decide_offer self slot b }
    {
        let taken = slots::offered_slot(self.strict(), self.bal_prepared, b);
        let said = proposal(slot, self.bal_prepared, b);
        let keys = b.keys;
        Decided {
            noted: true,
            sc: self,
            slot: taken,
            says: Says::Two(Action::AcceptData(said), Action::Accept(said)),
            keys,
        }
    }
}
