// One record, played: a new replica, or the call that the record names.
ghost use Rattle.std.specs.Prelude.{◌≡◌, length};
ghost use Rattle.replica.specs.Seen.{seen};
ghost use Rattle.replica.specs.Step.{Told, step};
ghost use Rattle.trace.specs.Kinds.{number_of};
ghost use Rattle.play.specs.Play.{renewed, named, played_at};

use crate::fields::{batch_of, done_of, reply_of, tally_of};
use reader::read_at;
use replica::{Handled, Refusal, Replica};
use trace::{Kind, Record, is_malformed, keys_of, sum_is_right};

// A refusal, which keeps the replica.
// Kept: `Replica::refused` stays inside its crate, since a public one would be one more promise.
fn refused(r: Replica, refusal: Refusal) -> Handled
    ensures { result ≡ record { outcome = Err refusal; replica = r } }
{
    Handled {
        outcome: Err(refusal),
        replica: r,
    }
}

// Kind 0. The room is lent for the promise alone, and stays as it is.
// Kept: a rule of the project, here and below: 01 wants "action records in a lent buffer of numbers", and each call is lent that room.
fn renew(r: Replica, room: &mut [u64], rec: Record) -> Handled
    ensures { Told (renewed r rec) (seen result) room.old room.new }
{
    let made = Replica::new(rec.peer, rec.sub, rec.slot, rec.trigger);
    if let Err(refusal) = made.outcome {
        return refused(r, refusal);
    }
    Handled {
        outcome: Ok(0),
        replica: made.replica,
    }
}

// Put into its caller: a replica is 27 KB and goes in and out by value, and by itself this would copy it twice more for each record.
/// Plays the record that begins at a place of lent bytes.
#[inline(always)]
pub fn play_at(r: Replica, room: &mut [u64], bytes: &[u8], at: usize) -> Handled
    ensures { Told (played_at r (length room.old) bytes.now at) (seen result) room.old room.new }
{
    let rec = read_at(bytes, at).read;
    let right = sum_is_right(bytes, at);
    match Kind::try_from(rec.kind) {
        Ok(kind) if !is_malformed(rec, right) => call(r, room, kind, rec),
        _ => refused(r, Refusal::Malformed),
    }
}

// What a record that isn't malformed names: a new replica, or a call. The last five kinds no member of the group sends: offers, and what the
// host's own log, store and readers tell.
fn call(r: Replica, room: &mut [u64], kind: Kind, rec: Record) -> Handled
    requires { number_of kind ≡ rec.kind }
    ensures { Told (named r (length room.old) rec) (seen result) room.old room.new }
{
    match kind {
        Kind::New => renew(r, room, rec),
        Kind::Prepare => r.prepare(room, rec.peer, rec.trigger, rec.ballot),
        Kind::PrepareReply => r.prepare_reply(room, rec.peer, reply_of(rec)),
        Kind::Accept => r.accept(room, rec.peer, rec.slot, rec.ballot, batch_of(rec)),
        Kind::AcceptReply => r.accept_reply(room, rec.peer, rec.slot, rec.ballot),
        Kind::CommitNotice => r.commit_notice(room, rec.peer, rec.ballot, rec.bar),
        Kind::Timeout => r.timeout(room, rec.peer),
        Kind::Offer => r.offer(room, batch_of(rec)),
        Kind::Logged => r.logged(room, done_of(rec)),
        Kind::Executed => r.executed(room, rec.slot),
        Kind::OpenRead => r.open_read(room, rec.slot, rec.count, keys_of(rec)),
        Kind::ReadReply => { r.read_reply(room, rec.peer, rec.slot, rec.sub == 1, tally_of(rec)) }
    }
}
