// The kinds of record.
ghost use Rattle.std.specs.Prelude.{Some};
ghost use Rattle.trace.specs.Kinds.{Decodes};
ghost use Rattle.trace.specs.Texts.{kind_text, unknown_text};

use std::error::Error;
use std::fmt;

/// What a record is for, in the order of the numbers from 0 on: a new replica, or the call that it names.
#[derive(Clone, Copy, Debug, PartialEq, Eq)]
pub enum Kind {
    New,
    Prepare,
    PrepareReply,
    Accept,
    AcceptReply,
    CommitNotice,
    Timeout,
    Offer,
    Logged,
    Executed,
    OpenRead,
    ReadReply,
}

/// A number, above 11, that no kind has.
#[derive(Clone, Copy, Debug, PartialEq, Eq)]
pub struct UnknownKind(pub u64);

impl TryFrom<u64> for Kind {
    type Error = UnknownKind;

    ghost try_from_gives = { Decodes };

    fn try_from(number: u64) -> Result<Self, UnknownKind> {
        Ok(match number {
            0 => Kind::New,
            1 => Kind::Prepare,
            2 => Kind::PrepareReply,
            3 => Kind::Accept,
            4 => Kind::AcceptReply,
            5 => Kind::CommitNotice,
            6 => Kind::Timeout,
            7 => Kind::Offer,
            8 => Kind::Logged,
            9 => Kind::Executed,
            10 => Kind::OpenRead,
            11 => Kind::ReadReply,
            _ => return Err(UnknownKind(number)),
        })
    }
}

impl fmt::Display for Kind {
    ghost output = { λ kind. Some (kind_text kind) };

    fn fmt<W: fmt::Write>(&self, f: &mut fmt::Formatter<W>) -> fmt::Result {
        f.write_str(match self {
            Kind::New => "new replica",
            Kind::Prepare => "Prepare",
            Kind::PrepareReply => "PrepareReply",
            Kind::Accept => "Accept",
            Kind::AcceptReply => "AcceptReply",
            Kind::CommitNotice => "CommitNotice",
            Kind::Timeout => "timeout",
            Kind::Offer => "offer",
            Kind::Logged => "log done",
            Kind::Executed => "executed",
            Kind::OpenRead => "open read",
            Kind::ReadReply => "read reply",
        })
    }
}

impl fmt::Display for UnknownKind {
    ghost output = { λ e. Some (unknown_text e) };

    fn fmt<W: fmt::Write>(&self, f: &mut fmt::Formatter<W>) -> fmt::Result {
        write!(f, "no record has kind {}", self.0)
    }
}

impl Error for UnknownKind {}
