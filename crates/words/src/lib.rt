// Numbers in bytes: little-endian numbers and sums of words over any lent part, and a number's decimal text.
#![tactic(auto)]

mod little;
mod sum;
mod text;

pub use little::{number_at, put_word, word_at};
pub use sum::sum_at;
pub use text::{put_byte, put_number};
