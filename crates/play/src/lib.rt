// Records of a trace, played on a replica: a record's fields to a call, the call, and the line that it prints.
#![tactic(auto)]

mod calls;
mod fields;
mod lines;

ghost use Rattle.std.specs.Prelude.{◌≡◌};
ghost use Rattle.play.specs.Play.{line_from};

pub use calls::play_at;
use decide::Scalars;
pub use lines::{put_row, show_all, show_at};
use replica::Replica;

/// A run: how many records were played, the place after the text of their lines, and the replica after them.
#[derive(Clone, Copy)]
pub struct Run {
    pub number: u64,
    pub place: usize,
    pub replica: Replica,
}

// Kept: what may not change: `line_of` promises of any answer, count and scalars (`line_from`), so no `Handled` stands in their place.
/// The seven numbers that a record prints: its own, the answer, how many actions, and four of the replica's.
pub fn line_of(number: u64, answer: u64, count: usize, sc: Scalars) -> [u64; 7]
    ensures { result ≡ line_from number answer count sc }
{
    [
        number,
        answer,
        count as u64,
        sc.bal_max_seen,
        sc.accept_bar,
        sc.commit_bar,
        sc.exec_bar,
    ]
}
