// The tally is lent to the thin call, and is ours again after it.
ghost use Rattle.std.specs.Prelude.{◌≡◌};
ghost use Rattle.tally.specs.Merge as merging;

use tally::kept::merge_into;
use tally::{Merged, Tally};

pub(crate) fn merged(mut held: Tally, reply: Tally) -> Merged
    ensures { merging.numbered result ≡ merging.merge held reply }
{
    let outcome = merge_into(&mut held, reply);
    Merged {
        outcome,
        tally: held,
    }
}
