// Stepping through a lent trace.
ghost use Rattle.std.specs.Prelude.{◌≡◌};
ghost use Rattle.trace.specs.Records.{next_at};

use crate::Next;

/// What stands at a place.
pub fn next_record(bytes: &[u8], at: usize) -> Next
    ensures { result ≡ next_at bytes.now at }
{
    if bytes.len() <= at {
        return Next::End;
    }
    if bytes.len() - at < 256 {
        return Next::Short;
    }
    Next::Whole(at)
}
