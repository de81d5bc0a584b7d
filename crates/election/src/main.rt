// Plays an election and two commits among three replicas, call by call, and prints what they answer.
#![tactic(auto)]

mod stage;

ghost use Rattle.std.specs.Prelude.{◌<◌};

use batch::{Batch, empty_batch};
use decide::Reply;
use replica::{Done, Entry};
use slots::Vote;
use stage::Stage;
use std::io;
use std::io::Write;

// Member 0 leads with it.
const BALLOT: u64 = 257;

// A member finishes an entry.
fn logged(
    s: &mut Stage<'_, impl Write>,
    member: usize,
    entry: Entry,
    slot: u64,
    size: u64,
) -> io::Result<()>
    requires { member < 3 }
{
    let done = Done {
        entry,
        slot,
        ballot: BALLOT,
        size,
    };
    s.call(member, |r, room| r.logged(room, done))
}

// A reply for the only slot that was asked for, without a vote.
fn promised(s: &mut Stage<'_, impl Write>, peer: u64) -> io::Result<()> {
    let reply = Reply {
        slot: 0,
        trigger: 0,
        endprep: 0,
        ballot: BALLOT,
        voted: false,
        vote: Vote {
            ballot: 0,
            batch: empty_batch(),
        },
        bar: 0,
    };
    s.call(0, |r, room| r.prepare_reply(room, peer, reply))
}

// A timeout at member 0, its Prepare at the others, the entry finished at all three, and both PrepareReplies; with its own entry the first
// makes the quorum.
fn election(s: &mut Stage<'_, impl Write>) -> io::Result<()> {
    s.call(0, |r, room| r.timeout(room, 0))?;
    for member in 1..3 {
        s.call(member, |r, room| r.prepare(room, 0, 0, BALLOT))?;
    }
    for member in 0..3 {
        logged(s, member, Entry::PrepareBal, 0, 40)?;
    }
    promised(s, 1)?;
    promised(s, 2)
}

// A batch at the others, its entry finished at all three, and both AcceptReplies; with its own entry the first commits. Member 0 finishes its
// commit.
fn commit(
    s: &mut Stage<'_, impl Write>,
    slot: u64,
    batch: Batch,
    peers: [u64; 2],
    sizes: [u64; 2],
) -> io::Result<()> {
    for member in 1..3 {
        s.call(member, |r, room| r.accept(room, 0, slot, BALLOT, batch))?;
    }
    for member in 0..3 {
        logged(s, member, Entry::AcceptData, slot, sizes[0])?;
    }
    for peer in peers {
        s.call(0, |r, room| r.accept_reply(room, peer, slot, BALLOT))?;
    }
    logged(s, 0, Entry::CommitSlot, slot, sizes[1])
}

// The others hear of both commits and finish them, member 2 in the other order; all three execute slot 1.
fn notice(s: &mut Stage<'_, impl Write>) -> io::Result<()> {
    for member in 1..3 {
        s.call(member, |r, room| r.commit_notice(room, 0, BALLOT, 2))?;
    }
    logged(s, 1, Entry::CommitSlot, 0, 200)?;
    logged(s, 1, Entry::CommitSlot, 1, 240)?;
    logged(s, 2, Entry::CommitSlot, 1, 200)?;
    logged(s, 2, Entry::CommitSlot, 0, 240)?;
    for member in 0..3 {
        s.call(member, |r, room| r.executed(room, 1))?;
    }
    Ok(())
}

// A PrepareReply that comes late, a Prepare from self, and one for a slot past the window.
fn late(s: &mut Stage<'_, impl Write>) -> io::Result<()> {
    promised(s, 2)?;
    s.call(0, |r, room| r.prepare(room, 0, 0, BALLOT))?;
    s.call(1, |r, room| r.prepare(room, 0, 64, BALLOT))
}

fn main(rt: HostRuntime) -> io::Result<()> {
    let mut out = rt.stdout();
    let mut stage = Stage::new(&mut out)?;
    let seven = Batch {
        id: 7,
        count: 2,
        keys: [1, 2, 0, 0, 0, 0, 0, 0],
    };
    election(&mut stage)?;
    // Slot 0 with its empty batch. The notice of its commit is lost.
    commit(&mut stage, 0, empty_batch(), [1, 2], [80, 120])?;
    // Slot 1 with an offered batch.
    stage.call(0, |r, room| r.offer(room, seven))?;
    commit(&mut stage, 1, seven, [2, 1], [160, 200])?;
    notice(&mut stage)?;
    late(&mut stage)
}
