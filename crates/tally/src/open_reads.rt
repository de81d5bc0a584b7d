// The table of open reads, and one reply to one of them (quorumread.rs, handle_msg_read_query_reply).
ghost use Rattle.std.specs.Prelude.{◌≡◌, ℕ};
ghost use Rattle.tally.specs.Merge as merging;
ghost use Rattle.tally.specs.Open.{nothing_known, new_read, no_reads, find_read, open_read, close_read, put_read, fit_read, fit_reads, with_tally, with_ack, stays, replaced, quorum_closes, acknowledged, reply_to};
ghost use Rattle.tally.specs.Open.{open_number, numbered_open, numbered_reply};

use crate::merge::merge;
use crate::{Best, KeyBest, Merged, OpenError, READS, Read, Reads, Replied, Tally};
use batch::KEYS;

// A tally of so many keys with nothing known of any.
pub fn nothing_known(count: usize) -> Tally
    ensures { result ≡ nothing_known count }
{
    let nothing = KeyBest {
        best: Best::Nothing,
    };
    Tally {
        count,
        bests: [nothing; KEYS],
    }
}

// A read as it opens.
fn new_read(id: u64, count: usize, keys: [u64; KEYS]) -> Read
    ensures { result ≡ new_read id count keys }
{
    Read {
        id,
        acks: 0,
        keys: batch::first_keys(count, keys),
        tally: nothing_known(count),
    }
}

// A table with no read open.
pub fn no_reads() -> Reads
    ensures { result ≡ no_reads }
{
    Reads {
        count: 0,
        reads: [new_read(0, 0, [0; KEYS]); READS],
    }
}

impl OpenError {
    // 01's number for it: 10 and 11.
    pub fn number(self) -> u64
        ensures { result ≡ open_number self }
    {
        match self {
            OpenError::Outside => 10,
            OpenError::Full => 11,
        }
    }
}

impl Reads {
    // The place of the open read with this id, or the count.
    // Kept: a number and no Option, since that is what `find_read` promises any caller: the count where no read has the id.
    // Kept: here and below the tests of a count past the room, since the fields are public and the promises speak of every count (`find_read`, `open_read`,
    // `close_read`, `put_read`, `fit_reads`).
    pub fn find(self, id: u64) -> usize
        ensures { result ≡ find_read self id }
    {
        let n = self.count;
        if READS < n {
            return n;
        }
        self.reads[..n]
            .iter()
            .position(|read| read.id == id)
            .unwrap_or(n)
    }

    // One read more, at the end of the table; a read that is refused leaves the table as it was.
    #[tactic(auto, unfolding(crate::specs::Open::open_read))]
    pub fn open_read(&mut self, id: u64, count: usize, keys: [u64; KEYS]) -> Result<(), OpenError>
        ensures { numbered_open result self.new ≡ open_read self.old id count keys }
    {
        let n = self.count;
        if count == 0 || KEYS < count || self.find(id) < n {
            return Err(OpenError::Outside);
        }
        if READS <= n {
            return Err(OpenError::Full);
        }
        self.reads[n] = new_read(id, count, keys);
        self.count += 1;
        Ok(())
    }

    // The table without the read at a place: the last one takes it.
    #[tactic(auto, unfolding(crate::specs::Open::close_read))]
    pub fn close(mut self, at: usize) -> Reads
        ensures { result ≡ close_read self at }
    {
        if READS < self.count || self.count <= at {
            return self;
        }
        self.count -= 1;
        self.reads[at] = self.reads[self.count];
        self
    }

    // The table with the read at a place written anew.
    #[tactic(auto, unfolding(crate::specs::Open::put_read))]
    pub fn put(mut self, at: usize, read: Read) -> Reads
        ensures { result ≡ put_read self at read }
    {
        if READS < self.count || self.count <= at {
            return self;
        }
        self.reads[at] = read;
        self
    }

    // Whether every read in use is fit.
    pub fn is_fit(self, group: u64) -> bool
        ensures { result ≡ fit_reads group self }
    {
        if READS < self.count {
            return false;
        }
        self.reads[..self.count]
            .iter()
            .all(|read| read.is_fit(group))
    }
}

impl Read {
    // Whether it has at most eight keys, and only members have answered.
    fn is_fit(self, group: u64) -> bool
        ensures { result ≡ fit_read group self }
    {
        self.tally.count <= KEYS && members::within(self.acks, group)
    }

    fn with_tally(self, tally: Tally) -> Read
        ensures { result ≡ with_tally self tally }
    {
        Read { tally, ..self }
    }

    fn with_ack(self, peer: u64) -> Read
        ensures { result ≡ with_ack self peer }
    {
        Read {
            acks: members::with(self.acks, peer),
            ..self
        }
    }

    // The read stays open.
    fn stay(self) -> Replied
        ensures { numbered_reply result ≡ stays 0 self }
    {
        Replied {
            outcome: Ok(None),
            read: self,
        }
    }

    // The reply's list answers, for as many keys as both lists have.
    fn replace(self, reply: Tally) -> Replied
        ensures { numbered_reply result ≡ replaced self reply }
    {
        let answers = self.tally.count.min(reply.count);
        Replied {
            outcome: Ok(Some(answers)),
            read: self.with_tally(reply),
        }
    }

    // A quorum answers for every key, and fewer wait.
    fn weigh(self, quorum: u64) -> Replied
        ensures { numbered_reply result ≡ quorum_closes quorum self }
    {
        if members::count(self.acks) < quorum {
            return self.stay();
        }
        Replied {
            outcome: Ok(Some(self.tally.count)),
            read: self,
        }
    }

    // The merge is done: the sender is acknowledged unless there was a conflict.
    fn acknowledge(self, quorum: u64, peer: u64, merged: Merged) -> Replied
        ensures { numbered_reply result ≡ acknowledged quorum peer self (merging.numbered merged) }
    {
        let read = self.with_tally(merged.tally);
        match merged.outcome {
            Ok(()) => read.with_ack(peer).weigh(quorum),
            Err(error) => Replied {
                outcome: Err(error),
                read,
            },
        }
    }
}

// One reply to one open read.
#[tactic(auto, unfolding(crate::specs::Open::reply_to))]
pub fn reply_to(quorum: u64, peer: u64, from_leader: bool, reply: Tally, read: Read) -> Replied
    ensures { numbered_reply result ≡ reply_to quorum peer from_leader reply read }
{
    if from_leader {
        return read.replace(reply);
    }
    if members::contains(read.acks, peer) {
        return read.stay();
    }
    read.acknowledge(quorum, peer, merge(read.tally, reply))
}
