// One reply merged into a tally (quorumread.rs, the match over the two best answers of a key).
ghost use Rattle.std.specs.Prelude.{◌≡◌, ℕ};
ghost use Rattle.tally.specs.Merge as merging;

use crate::{Best, Conflict, Held, MergeError, Merged, ReadAnswer, Tally};
use batch::KEYS;

// A reply with a slot and a value, over what is held.
fn merge_value(held: Best, reply: Held) -> Result<Best, Conflict>
    ensures { result ≡ merging.merge_value held reply }
{
    match held {
        Best::Nothing => Ok(Best::Value(reply)),
        Best::Slot(s) if s <= reply.slot => Ok(Best::Value(reply)),
        Best::Value(h) if h.slot < reply.slot => Ok(Best::Value(reply)),
        Best::Value(h) if h.slot == reply.slot && h.value != reply.value => Err(Conflict),
        _ => Ok(held),
    }
}

// A reply with a slot alone, over what is held.
fn merge_slot(held: Best, slot: u64) -> Result<Best, Conflict>
    ensures { result ≡ merging.merge_slot held slot }
{
    match held {
        Best::Nothing => Ok(Best::Slot(slot)),
        Best::Slot(s) if s < slot => Ok(Best::Slot(slot)),
        Best::Value(h) if h.slot < slot => Ok(Best::Slot(slot)),
        _ => Ok(held),
    }
}

// A reply's best answer for a key, over what is held.
pub fn merge_key(held: Best, reply: Best) -> Result<Best, Conflict>
    ensures { result ≡ merging.merge_key held reply }
{
    match reply {
        Best::Nothing => Ok(held),
        Best::Slot(s) => merge_slot(held, s),
        Best::Value(h) => merge_value(held, h),
    }
}

impl MergeError {
    // 01's number for it: 1, 10, 6 and 12.
    pub fn number(self) -> u64
        ensures { result ≡ merging.error_number self }
    {
        match self {
            MergeError::HeldTooLong => 1,
            MergeError::ReplyTooLong => 10,
            MergeError::UnequalLengths => 6,
            MergeError::Conflict => 12,
        }
    }
}

impl Tally {
    // The merge ends here.
    fn refused(self, error: MergeError) -> Merged
        ensures { merging.numbered result ≡ record { answer = merging.error_number error; tally = self } }
    {
        Merged {
            outcome: Err(error),
            tally: self,
        }
    }
}

// A reply over what is held, key by key up to the first conflict.
// Kept: the tests of a count past eight, since the fields are public and `merge` speaks of every count.
#[tactic(auto, unfolding(crate::specs::Merge::merge))]
pub fn merge(mut held: Tally, reply: Tally) -> Merged
    ensures { merging.numbered result ≡ merging.merge held reply }
{
    let n = held.count;
    if KEYS < n {
        return held.refused(MergeError::HeldTooLong);
    }
    if KEYS < reply.count {
        return held.refused(MergeError::ReplyTooLong);
    }
    if n != reply.count {
        return held.refused(MergeError::UnequalLengths);
    }
    // Kept: by index. `for (ours, theirs) in held.bests[..n].iter_mut().zip(&reply.bests[..n])` was tried; the proof did not close: `best_at` and `Merging`,
    // by which the laws and each turn speak, are of a place in the whole tally, which the iterator has lent.
    for i in 0..n {
        let Ok(best) = merge_key(held.bests[i].best, reply.bests[i].best) else {
            return held.refused(MergeError::Conflict);
        };
        held.bests[i].best = best;
    }
    Merged {
        outcome: Ok(()),
        tally: held,
    }
}

// What a read that is answered says of a key.
pub fn answer_of(leader: u64, best: Best) -> ReadAnswer
    ensures { result ≡ merging.answer_of leader best }
{
    match best {
        Best::Nothing => ReadAnswer { tag: 0, value: 0 },
        Best::Slot(_) => ReadAnswer {
            tag: 1,
            value: leader,
        },
        Best::Value(h) => ReadAnswer {
            tag: 2,
            value: h.value,
        },
    }
}
