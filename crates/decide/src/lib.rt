// What a call that touches one slot decides, from the replica's scalars and that slot: small values in, small values out.
#![tactic(auto)]

mod bars;
mod numbers;
mod prepare_reply;
mod replies;

use actions::Says;
pub use bars::unknown_bars;
pub use numbers::{DISALLOWED, LAST_START, NOBODY, STRICT, UNKNOWN_BAR, URGENT, may_be};
use slots::{Slot, Vote};
use std::fmt;

// The replica's numbers. options: URGENT + DISALLOWED + STRICT; leader: NOBODY = none; lead_trigger: the trigger slot of the last step-up.
#[derive(Clone, Copy)]
pub struct Scalars {
    pub id: u64,
    pub group: u64,
    pub start: u64,
    // Kept: what may not change: `may_be` and `Scalars::is_fit` promise of any number, and `Replica::new` takes any
    pub options: u64,
    // Kept: what may not change: a host may write any number here, and `Scalars::is_fit` promises that it is refused (1)
    pub leader: u64,
    pub bal_prep_sent: u64,
    pub bal_prepared: u64,
    pub bal_max_seen: u64,
    pub accept_bar: u64,
    pub commit_bar: u64,
    pub exec_bar: u64,
    pub wal_offset: u64,
    pub peer_accept_max: u64,
    pub lead_trigger: u64,
}

// The peer accept table: a bar for each member, and whether self has its entry yet.
#[derive(Clone, Copy)]
pub struct PeerBars {
    // Kept: what may not change: `PeerBars::with_bar` and `PeerBars::with_fallen` take a table with any bar of self, whatever the flag says
    pub own: bool,
    // Kept: fixed memory, no heap; 2^64 - 1 says that nothing is known (01), no Option: `quorumth` (specs/Bars.antt) sorts it as the largest
    pub bars: [u64; 9],
}

// Why a call that touches one slot is refused: a failed assertion of the source (6), or another batch for a strict replica's committed
// slot (15). A refused call changes nothing.
#[derive(Clone, Copy, Debug, PartialEq, Eq)]
pub enum Refusal {
    Contradiction,
    Renamed,
}

impl fmt::Display for Refusal {
    ghost use Rattle.std.specs.Prelude.{Some};
    ghost use Rattle.decide.specs.Texts.{refusal_text};

    ghost output = { λ refusal. Some (refusal_text refusal) };

    fn fmt<W: fmt::Write>(&self, f: &mut fmt::Formatter<W>) -> fmt::Result {
        f.write_str(match self {
            Refusal::Contradiction => "the message contradicts what is held",
            Refusal::Renamed => "another batch for a committed slot",
        })
    }
}

// What a call decides: the scalars and the slot after it; what it says, with a batch's keys beside it; and whether the slot's batch goes
// into the key table.
#[derive(Clone, Copy)]
pub struct Decided {
    pub noted: bool,
    pub sc: Scalars,
    pub slot: Slot,
    pub says: Says,
    // Kept: fixed memory, no heap: a batch has at most eight keys
    pub keys: [u64; 8],
}

// A PrepareReply as it arrives. voted: whether a vote is present.
#[derive(Clone, Copy)]
pub struct Reply {
    pub slot: u64,
    pub trigger: u64,
    pub endprep: u64,
    pub ballot: u64,
    // Kept: what may not change: `Replica::prepare_reply` and `Reply::with_voted` take a reply with no vote whose `vote` holds any numbers
    pub voted: bool,
    pub vote: Vote,
    pub bar: u64,
}

// What a PrepareReply decides: whether the slot's batch goes into the key table and the slots from the trigger on enter Accept; the
// scalars, the slot and the trigger's after it.
#[derive(Clone, Copy)]
pub struct Weighed {
    pub noted: bool,
    pub enters: bool,
    pub sc: Scalars,
    pub slot: Slot,
    pub trigger: Slot,
}
