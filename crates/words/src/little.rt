// Little-endian numbers in lent bytes.
ghost use Rattle.std.specs.Prelude.{◌≡◌, ◌+◌, ◌≤◌, length};
ghost use Rattle.words.specs.Little.{number_at, part, bytes_of};
ghost use Rattle.words.specs.Put.{put};

// The number of the four bytes from `at` on; 0 where there are not so many.
// Kept: here and below the bytes and the place stand beside each other, since the bytes are lent (fixed memory) and the promises speak of any two, a place past
// the end too (`number_at`, `put`).
#[tactic(auto, using(crate::specs::LittleLaws::number_past))]
pub fn word_at(bytes: &[u8], at: usize) -> u32
    ensures { result ≡ number_at 4 bytes.now at }
{
    // Kept: here and below the test stands as it is: a helper over it is no plainer, since it would be one line less here and a function with a promise more.
    if bytes.len() < 4 || bytes.len() - 4 < at {
        return 0;
    }
    word(bytes, at)
}

// The number of the eight bytes from `at` on; 0 where there are not so many.
#[tactic(auto, using(crate::specs::LittleLaws::number_past))]
pub fn number_at(bytes: &[u8], at: usize) -> u64
    ensures { result ≡ number_at 8 bytes.now at }
{
    if bytes.len() < 8 || bytes.len() - 8 < at {
        return 0;
    }
    u64::from_le_bytes(taken(bytes, at))
}

// Writes a number as the four bytes from `at` on; changes nothing where there are not so many.
pub fn put_word(bytes: &mut [u8], at: usize, n: u32)
    ensures { bytes.new ≡ put bytes.old at (bytes_of 4 n) }
{
    if bytes.len() < 4 || bytes.len() - 4 < at {
        return;
    }
    bytes[at..at + 4].copy_from_slice(&n.to_le_bytes());
}

#[tactic(auto, using(crate::specs::LittleLaws::four_read))]
pub(crate) fn word(bytes: &[u8], at: usize) -> u32
    requires { at + 4 ≤ length bytes.now }
    ensures { result ≡ number_at 4 bytes.now at }
{
    u32::from_le_bytes(taken(bytes, at))
}

// The N bytes from `at` on.
fn taken<const N: usize>(bytes: &[u8], at: usize) -> [u8; N]
    requires { at + N ≤ length bytes.now }
    ensures { result ≡ part bytes.now at N }
{
    let mut part = [0; N];
    part.copy_from_slice(&bytes[at..at + N]);
    part
}
