// The numbers of a record, from its bytes.
ghost use Rattle.std.specs.Prelude.{◌≡◌, ◌+◌, ◌≤◌, length};
ghost use Rattle.trace.specs.Records.{fields_at, record_at, no_record, numbers_at, keys_of};

use crate::Record;

/// The record that begins at a place; all zero where there are not 256 bytes.
pub fn record_at(bytes: &[u8], at: usize) -> Record
    ensures { result ≡ record_at bytes.now at }
{
    // Kept: what may not change: `record_at` promises the all-zero record where there are not 256 bytes from the place on.
    if bytes.len() < 256 {
        return no_record();
    }
    if bytes.len() - 256 < at {
        return no_record();
    }
    whole_record(bytes, at)
}

fn whole_record(bytes: &[u8], at: usize) -> Record
    requires { at + 256 ≤ length bytes.now }
    ensures { result ≡ fields_at bytes.now at }
{
    Record {
        kind: u64::from(bytes[at]),
        peer: u64::from(bytes[at + 1]),
        sub: u64::from(bytes[at + 2]),
        count: usize::from(bytes[at + 3]),
        slot: words::number_at(bytes, at + 8),
        trigger: words::number_at(bytes, at + 16),
        endprep: words::number_at(bytes, at + 24),
        ballot: words::number_at(bytes, at + 32),
        voted: words::number_at(bytes, at + 40),
        batch: words::number_at(bytes, at + 48),
        bar: words::number_at(bytes, at + 56),
        entries: numbers(bytes, at + 64),
    }
}

fn numbers(bytes: &[u8], at: usize) -> [u64; 24]
    requires { at + 192 ≤ length bytes.now }
    ensures { result ≡ numbers_at bytes.now at 24 }
{
    std::array::from_fn(|i| words::number_at(bytes, at + 8 * i))
}

fn no_record() -> Record
    ensures { result ≡ no_record }
{
    // Kept: tried with a derived `Default`, and the proof didn't close: it promises each of the 24 numbers alone, `no_record` the list.
    Record {
        kind: 0,
        peer: 0,
        sub: 0,
        count: 0,
        slot: 0,
        trigger: 0,
        endprep: 0,
        ballot: 0,
        voted: 0,
        batch: 0,
        bar: 0,
        entries: [0; 24],
    }
}

/// The first number of each entry: the keys, in the kinds that have keys.
pub fn keys_of(rec: Record) -> [u64; 8]
    ensures { result ≡ keys_of rec }
{
    std::array::from_fn(|i| rec.entries[3 * i])
}
