// What a call answers: a refusal's number, what it means in a few words, and whose refusal of a crate below it is; and what is handed back, as numbers.
ghost use Rattle.std.specs.Prelude.{◌≡◌, Some};
ghost use Rattle.tally.specs.Merge.{error_number};
ghost use Rattle.tally.specs.Open.{open_number};
ghost use Rattle.decide.specs.Decide as deciding;
ghost use Rattle.replica.specs.Seen.{refusal_number, answer_number, action_count};
ghost use Rattle.replica.specs.Texts.{refusal_text};

use super::{Handled, Refusal};
use std::fmt;
use tally::{MergeError, OpenError};

impl Refusal {
    // 01's number for it, and 02's: 1 to 15.
    pub fn number(self) -> u64
        ensures { result ≡ refusal_number self }
    {
        match self {
            Refusal::Unready => 1,
            Refusal::NotAPeer => 2,
            Refusal::NotOwner => 3,
            Refusal::PastEnd => 4,
            Refusal::PastWindow => 5,
            Refusal::Contradiction => 6,
            Refusal::KeysFull => 7,
            Refusal::NoStepUp => 8,
            Refusal::NotLeading => 9,
            Refusal::Outside => 10,
            Refusal::ReadsFull => 11,
            Refusal::Conflict => 12,
            Refusal::Malformed => 13,
            Refusal::WrongSummary => 14,
            Refusal::Renamed => 15,
        }
    }
}

impl Handled {
    // 01's number of the answer: 0, or the refusal's.
    pub fn answer(&self) -> u64
        ensures { result ≡ answer_number self.now.outcome }
    {
        match self.outcome {
            Ok(_) => 0,
            Err(refusal) => refusal.number(),
        }
    }

    // How many actions the room has: none where the call is refused.
    pub fn count(&self) -> usize
        ensures { result ≡ action_count self.now.outcome }
    {
        self.outcome.unwrap_or(0)
    }
}

impl fmt::Display for Refusal {
    ghost output = { λ refusal. Some (refusal_text refusal) };

    fn fmt<W: fmt::Write>(&self, f: &mut fmt::Formatter<W>) -> fmt::Result {
        f.write_str(match self {
            Refusal::Unready => "the action room is too short, or the record unfit",
            Refusal::NotAPeer => "the sender is not another member",
            Refusal::NotOwner => "the ballot is not its sender's",
            Refusal::PastEnd => "the slot is past the log end, or self does not lead",
            Refusal::PastWindow => "a slot past the window is needed",
            Refusal::Contradiction => "what the source asserts does not hold",
            Refusal::KeysFull => "more new keys than the table has free",
            Refusal::NoStepUp => "no step-up from here",
            Refusal::NotLeading => "no prepared leader to offer to",
            Refusal::Outside => "numbers outside their bounds, or a read id in use",
            Refusal::ReadsFull => "as many reads are open as may be",
            Refusal::Conflict => "two values for a key at one slot",
            Refusal::Malformed => "a malformed trace record",
            Refusal::WrongSummary => "the summary is not that of the slots",
            Refusal::Renamed => "another batch for a committed slot",
        })
    }
}

impl From<MergeError> for Refusal {
    ghost from_gives = { λ e r. refusal_number r ≡ error_number e };

    fn from(error: MergeError) -> Refusal {
        match error {
            MergeError::HeldTooLong => Refusal::Unready,
            MergeError::ReplyTooLong => Refusal::Outside,
            MergeError::UnequalLengths => Refusal::Contradiction,
            MergeError::Conflict => Refusal::Conflict,
        }
    }
}

impl From<OpenError> for Refusal {
    ghost from_gives = { λ e r. refusal_number r ≡ open_number e };

    fn from(error: OpenError) -> Refusal {
        match error {
            OpenError::Outside => Refusal::Outside,
            OpenError::Full => Refusal::ReadsFull,
        }
    }
}

impl From<decide::Refusal> for Refusal {
    ghost from_gives = { λ e r. refusal_number r ≡ deciding.number e };

    fn from(refusal: decide::Refusal) -> Refusal {
        match refusal {
            decide::Refusal::Contradiction => Refusal::Contradiction,
            decide::Refusal::Renamed => Refusal::Renamed,
        }
    }
}
