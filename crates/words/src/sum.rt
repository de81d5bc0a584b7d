// Sums of four-byte words.
ghost use Rattle.std.specs.Prelude.{◌≡◌, ◌+◌, ◌*◌, ◌≤◌, length, ◌==◌};
ghost use Rattle.base.specs.Pick.{pick};
ghost use Rattle.words.specs.Little.{number_at};
ghost use Rattle.words.specs.Sums.{sum_of};

use crate::little::word;

// The sum of n words from `at` on but for the one numbered `out`, wrapping at 2^32; 0 where there are not so many.
// Kept: the bytes and the place beside each other, since the bytes are lent (fixed memory) and `sum_of` speaks of any two, a place past the end too.
#[tactic(auto, using(crate::specs::SumLaws::sum_past))]
pub fn sum_at(bytes: &[u8], at: usize, n: usize, out: usize) -> u32
    ensures { result ≡ sum_of bytes.now at n out }
{
    if bytes.len() < at || (bytes.len() - at) / 4 < n {
        return 0;
    }
    let mut sum = 0u32;
    for i in 0..n {
        sum = sum.wrapping_add(summand(bytes, at, i, out));
    }
    sum
}

fn summand(bytes: &[u8], at: usize, i: usize, out: usize) -> u32
    requires { at + 4 * (i + 1) ≤ length bytes.now }
    ensures { result ≡ pick (i == out) 0 (number_at 4 bytes.now (at + 4 * i)) }
{
    if i == out { 0 } else { word(bytes, at + 4 * i) }
}
