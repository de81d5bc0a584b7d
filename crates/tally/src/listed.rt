// A tally from the numbers that name it: three for each key.
ghost use Rattle.std.specs.Prelude.{◌≡◌, ◌<◌};
ghost use Rattle.tally.specs.Listed.{best_from, best_of, listed};

use super::{Best, Held, KeyBest, Tally};

// What is known of a key, from its tag, slot and value.
// Kept: the tag is a number of a trace, and any may come in: `best_from` speaks of each, and 13 for a counted one above 2 is promised by `malformed` (trace).
fn best_from(tag: u64, slot: u64, value: u64) -> KeyBest
    ensures { result ≡ best_from tag slot value }
{
    let best = match tag {
        0 => Best::Nothing,
        1 => Best::Slot(slot),
        _ => Best::Value(Held { slot, value }),
    };
    KeyBest { best }
}

// What is known of the i-th key.
fn best_of(entries: [u64; 24], i: usize) -> KeyBest
    requires { i < 8 }
    ensures { result ≡ best_of entries i }
{
    best_from(entries[3 * i], entries[3 * i + 1], entries[3 * i + 2])
}

// The tally of so many keys that these numbers name.
pub fn listed(count: usize, entries: [u64; 24]) -> Tally
    ensures { result ≡ listed count entries }
{
    let nothing = KeyBest {
        best: Best::Nothing,
    };
    let mut bests = [nothing; 8];
    // Kept: `std::array::from_fn` over `best_of` was tried, and the proof did not close: that its eight items are those of `listed` was not found.
    for i in 0..8 {
        bests[i] = best_of(entries, i);
    }
    Tally { count, bests }
}
