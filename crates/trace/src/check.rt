// What makes a record malformed: its sum, and numbers that no record has.
ghost use Rattle.std.specs.Prelude.{◌≡◌, ◌≤◌};
ghost use Rattle.trace.specs.Kinds.{number_of};
ghost use Rattle.trace.specs.Records.{sum_right, sum_written, sub_known, bad_tag, malformed};

use crate::{Kind, Record};

/// Whether a whole record begins at a place and holds the sum of its other words.
pub fn sum_is_right(bytes: &[u8], at: usize) -> bool
    ensures { result ≡ sum_right bytes.now at }
{
    // Kept: what may not change, here and below: `sum_is_right` and `write_sum` promise what they do where there are not 256 bytes from the place on.
    if bytes.len() < 256 {
        return false;
    }
    if bytes.len() - 256 < at {
        return false;
    }
    let told = words::word_at(bytes, at + 4);
    let due = words::sum_at(bytes, at, 64, 1);
    told == due
}

/// Writes the sum of the other words into the record that begins at a place; changes nothing where there are not 256 bytes.
pub fn write_sum(bytes: &mut [u8], at: usize)
    ensures { bytes.new ≡ sum_written bytes.old at }
{
    if bytes.len() < 256 {
        return;
    }
    if bytes.len() - 256 < at {
        return;
    }
    let sum = words::sum_at(bytes, at, 64, 1);
    words::put_word(bytes, at + 4, sum);
}

/// Whether a record is malformed (13), given whether its sum is right.
pub fn is_malformed(rec: Record, right: bool) -> bool
    ensures { result ≡ malformed rec right }
{
    let Ok(kind) = Kind::try_from(rec.kind) else {
        return true;
    };
    if !right || 8 < rec.count || !sub_known(kind, rec.sub) {
        return true;
    }
    match kind {
        Kind::ReadReply => bad_tag(&rec.entries, rec.count),
        _ => false,
    }
}

fn sub_known(kind: Kind, sub: u64) -> bool
    ensures { result ≡ sub_known (number_of kind) sub }
{
    match kind {
        Kind::PrepareReply | Kind::ReadReply => sub <= 1,
        Kind::Logged => matches!(sub, 1..=3),
        _ => true,
    }
}

fn bad_tag(entries: &[u64; 24], count: usize) -> bool
    requires { count ≤ 8 }
    ensures { result ≡ bad_tag count entries.now }
{
    (0..count).any(|i| 2 < entries[3 * i])
}
