// A new replica, the first tests (answers 1 and 14), and what every call is tested for first.
ghost use Rattle.std.specs.Prelude.{◌≡◌};
ghost use Rattle.replica.specs.Record.{new_replica};
ghost use Rattle.replica.specs.Seen.{answer_number, seen_new};
ghost use Rattle.replica.specs.Admit.{ready_answer, from_member, from_peer, from_owner};

use super::{Handled, Made, Refusal, Replica};
use actions::ROOM;
use batch::{TABLE, empty_table};
use decide::{NOBODY, PeerBars, Scalars, UNKNOWN_BAR, may_be};
use tally::open_reads::no_reads;
use window::{Summary, no_slots};

impl Replica {
    // A new replica: refused, with the all-zero record, where its numbers are outside 01's.
    pub fn new(id: u64, group: u64, start: u64, options: u64) -> Made
        ensures { seen_new result ≡ new_replica id group start options }
    {
        let window = no_slots();
        let keys = empty_table();
        let reads = no_reads();
        if !may_be(id, group, start, options) {
            let sc = Scalars {
                id: 0,
                group: 0,
                start: 0,
                options: 0,
                leader: 0,
                bal_prep_sent: 0,
                bal_prepared: 0,
                bal_max_seen: 0,
                accept_bar: 0,
                commit_bar: 0,
                exec_bar: 0,
                wal_offset: 0,
                peer_accept_max: 0,
                lead_trigger: 0,
            };
            let bars = PeerBars {
                own: false,
                bars: [0; 9],
            };
            let summary = Summary {
                first: 0,
                accepting: 0,
            };
            return Made {
                outcome: Err(Refusal::Outside),
                replica: Replica {
                    sc,
                    bars,
                    window,
                    keys,
                    reads,
                    summary,
                },
            };
        }
        let sc = Scalars {
            id,
            group,
            start,
            options,
            leader: NOBODY,
            bal_prep_sent: 0,
            bal_prepared: 0,
            bal_max_seen: 0,
            accept_bar: start,
            commit_bar: start,
            exec_bar: start,
            wal_offset: 0,
            peer_accept_max: UNKNOWN_BAR,
            lead_trigger: 0,
        };
        let bars = PeerBars {
            own: false,
            bars: [UNKNOWN_BAR; 9],
        };
        let summary = Summary {
            first: start,
            accepting: 0,
        };
        Made {
            outcome: Ok(()),
            replica: Replica {
                sc,
                bars,
                window,
                keys,
                reads,
                summary,
            },
        }
    }

    // Unready where the room is too short or the record unfit, else WrongSummary where the summary is not the walk's. The slots are walked once.
    pub(crate) fn test_ready(self, room: usize) -> Result<(), Refusal>
        ensures { answer_number result ≡ ready_answer self room }
    {
        // Kept: what may not change: `test_ready` promises 1 of each record that is not fit (`ready_answer`), and a host may write any number into one.
        if room < ROOM {
            return Err(Refusal::Unready);
        }
        let w = self.window;
        let sc = self.sc;
        if !sc.is_fit(w.len) {
            return Err(Refusal::Unready);
        }
        let from = (sc.commit_bar - sc.start) as usize;
        let Some(seen) = w.survey(sc.group, from) else {
            return Err(Refusal::Unready);
        };
        if TABLE < self.keys.count {
            return Err(Refusal::Unready);
        }
        if !self.reads.is_fit(sc.group) {
            return Err(Refusal::Unready);
        }
        let first = sc.start + seen.first as u64;
        // Kept: what may not change: theorems of specs/ speak of each number of the summary alone (`unsummed_first`, `unsummed_accepting`), so two tests.
        if self.summary.first != first {
            return Err(Refusal::WrongSummary);
        }
        if self.summary.accepting != seen.accepting {
            return Err(Refusal::WrongSummary);
        }
        Ok(())
    }

    // The same, then NotAPeer where the call comes from no member.
    pub(crate) fn from_member(self, room: usize, member: u64) -> Result<(), Refusal>
        ensures { answer_number result ≡ from_member self room member }
    {
        self.test_ready(room)?;
        if self.sc.group <= member {
            return Err(Refusal::NotAPeer);
        }
        Ok(())
    }

    // The same, NotAPeer also where the call comes from self.
    pub(crate) fn from_peer(self, room: usize, peer: u64) -> Result<(), Refusal>
        ensures { answer_number result ≡ from_peer self room peer }
    {
        self.test_ready(room)?;
        if !self.sc.is_peer(peer) {
            return Err(Refusal::NotAPeer);
        }
        Ok(())
    }

    // The same, then NotOwner where the sender is not the ballot's owner.
    pub(crate) fn from_owner(self, room: usize, peer: u64, ballot: u64) -> Result<(), Refusal>
        ensures { answer_number result ≡ from_owner self room peer ballot }
    {
        self.from_peer(room, peer)?;
        if !members::is_owner(ballot, peer) {
            return Err(Refusal::NotOwner);
        }
        Ok(())
    }

    // Refused: no actions.
    pub(crate) fn refused(self, refusal: Refusal) -> Handled
        ensures { result ≡ record { outcome = Err refusal; replica = self } }
    {
        Handled {
            outcome: Err(refusal),
            replica: self,
        }
    }

    // Ignored as the source ignores it, or done with no actions.
    pub(crate) fn ignored(self) -> Handled
        ensures { result ≡ record { outcome = Ok 0; replica = self } }
    {
        Handled {
            outcome: Ok(0),
            replica: self,
        }
    }
}
