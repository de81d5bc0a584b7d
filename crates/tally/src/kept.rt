// The tally of one read that the host keeps. 01: "merged with one reply by a thin call over the same rule; unequal lengths are 6".
ghost use Rattle.std.specs.Prelude.{◌≡◌};
ghost use Rattle.tally.specs.Merge as merging;

use crate::merge::merge;
use crate::{MergeError, Tally};

// One reply over the tally that is lent: `merge`'s outcome, and its tally in the place of the one that was there.
// Kept: a thin call over `merge`, since 01 says so.
pub fn merge_into(held: &mut Tally, reply: Tally) -> Result<(), MergeError>
    ensures { merging.lent result held.new ≡ merging.merge held.old reply }
{
    let merged = merge(*held, reply);
    *held = merged.tally;
    merged.outcome
}
