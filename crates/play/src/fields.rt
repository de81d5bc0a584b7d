// A record's fields as the values that calls take.
ghost use Rattle.std.specs.Prelude.{◌≡◌};
ghost use Rattle.play.specs.Play.{batch_of, tally_of, reply_of, entry_of, done_of};

use batch::Batch;
use decide::Reply;
use replica::{Done, Entry};
use slots::Vote;
use tally::Tally;
use tally::listed::listed;
use trace::{Record, keys_of};

// The batch that a record names.
pub(crate) fn batch_of(rec: Record) -> Batch
    ensures { result ≡ batch_of rec }
{
    Batch {
        id: rec.batch,
        count: rec.count,
        keys: keys_of(rec),
    }
}

// The list of a read reply.
pub(crate) fn tally_of(rec: Record) -> Tally
    ensures { result ≡ tally_of rec }
{
    listed(rec.count, rec.entries)
}

// A PrepareReply.
pub(crate) fn reply_of(rec: Record) -> Reply
    ensures { result ≡ reply_of rec }
{
    Reply {
        slot: rec.slot,
        trigger: rec.trigger,
        endprep: rec.endprep,
        ballot: rec.ballot,
        voted: rec.sub == 1,
        vote: Vote {
            ballot: rec.voted,
            batch: batch_of(rec),
        },
        bar: rec.bar,
    }
}

// The entry that a log completion names.
// Kept: what may not change: `entry_of` of specs/Play is of any number, and says CommitSlot of all but 1 and 2; `is_malformed` refuses those above 3.
fn entry_of(sub: u64) -> Entry
    ensures { result ≡ entry_of sub }
{
    match sub {
        1 => Entry::PrepareBal,
        2 => Entry::AcceptData,
        _ => Entry::CommitSlot,
    }
}

// A log completion.
pub(crate) fn done_of(rec: Record) -> Done
    ensures { result ≡ done_of rec }
{
    Done {
        entry: entry_of(rec.sub),
        slot: rec.slot,
        ballot: rec.ballot,
        size: rec.bar,
    }
}
