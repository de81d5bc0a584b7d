// 003, quorumread.rs: opening a read (01's form) and a reply to one.
ghost use Rattle.std.specs.Prelude.{◌≡◌, [], ◌∷◌, length};
ghost use Rattle.actions.specs.Actions.{write_at};
ghost use Rattle.tally.specs.Open.{numbered_reply};
ghost use Rattle.replica.specs.Record.{summed};
ghost use Rattle.replica.specs.Seen.{seen};
ghost use Rattle.replica.specs.Quorumread.{answer_act, replied_step};
ghost use Rattle.replica.specs.Step.{call_open_read, call_read_reply, step, Told};
ghost use Rattle.replica.specs.ReadCalls.{AnswerFits, AnswersFit, RepliedFits, Answers};

use super::{Handled, Refusal, Replica};
use actions::{Action, Answered, put_action};
use batch::KEYS;
use tally::merge::answer_of;
use tally::open_reads::reply_to;
use tally::{MergeError, Read, Replied, Tally};

// What a closed read says of the key at place i, as the room's i-th action.
// Kept: a rule of the project, here and below: 01 wants "action records in a lent buffer of numbers", and each call is lent that room.
fn put_answer(room: &mut [u64], leader: u64, read: Read, i: usize)
    requires { AnswerFits i room.old }
    ensures { room.new ≡ write_at room.old i (answer_act leader read i ∷ []) }
{
    let said = answer_of(leader, read.tally.bests[i].best);
    let action = Action::ReadAnswer(Answered {
        read: read.id,
        place: i as u64,
        tag: said.tag,
        value: said.value,
    });
    put_action(room, i, action, [0u64; 8]);
}

// What it says of each of its first keys.
fn put_answers(room: &mut [u64], leader: u64, read: Read, answers: usize)
    requires { AnswersFit answers room.old }
    ensures { Answers leader read answers room.old room.new }
{
    // Kept: the new form is no plainer: the number i is what the action says, and where it stands in the room, so a range and no iterator over keys.
    for i in 0..answers {
        put_answer(room, leader, read, i);
    }
}

impl Replica {
    // A read opens, or not, as the table of reads says.
    pub fn open_read(mut self, room: &mut [u64], id: u64, count: usize, keys: [u64; 8]) -> Handled
        ensures { Told (step self (length room.old) (call_open_read id count keys)) (seen result) room.old room.new }
    {
        if let Err(refusal) = self.test_ready(room.len()) {
            return self.refused(refusal);
        }
        let outcome = match self.reads.open_read(id, count, keys) {
            Ok(()) => Ok(0),
            Err(error) => Err(Refusal::from(error)),
        };
        Handled {
            outcome,
            replica: self,
        }
    }

    // What a reply makes of the read at place i: it closes and answers, stays open, or the reply is refused; a conflict keeps what was merged before it.
    fn replied(mut self, room: &mut [u64], i: usize, d: Replied) -> Handled
        requires { RepliedFits self (numbered_reply d) room.old }
        ensures { Told (summed (replied_step self i (numbered_reply d))) (seen result) room.old room.new }
    {
        let outcome = match d.outcome {
            Ok(Some(answers)) => {
                put_answers(room, self.sc.leader, d.read, answers);
                self.reads = self.reads.close(i);
                Ok(answers)
            }
            Ok(None) => {
                self.reads = self.reads.put(i, d.read);
                Ok(0)
            }
            Err(error) => match error {
                MergeError::Conflict => {
                    self.reads = self.reads.put(i, d.read);
                    Err(Refusal::Conflict)
                }
                _ => Err(Refusal::from(error)),
            },
        };
        Handled {
            outcome,
            replica: self,
        }
    }

    // A reply to a read; an unknown read id is ignored.
    pub fn read_reply(
        self,
        room: &mut [u64],
        peer: u64,
        id: u64,
        from_leader: bool,
        reply: Tally,
    ) -> Handled
        ensures { Told (step self (length room.old) (call_read_reply peer id from_leader reply)) (seen result) room.old room.new }
    {
        if let Err(refusal) = self.from_member(room.len(), peer) {
            return self.refused(refusal);
        }
        // Kept: what may not change: `read_reply` promises 10 of a list over 8 (`read_reply_step`), and a host may write any number there.
        if KEYS < reply.count {
            return self.refused(Refusal::Outside);
        }
        let reads = self.reads;
        let at = reads.find(id);
        if reads.count <= at {
            return self.ignored();
        }
        let quorum = self.sc.quorum();
        let d = reply_to(quorum, peer, from_leader, reply, reads.reads[at]);
        self.replied(room, at, d)
    }
}
