// 02, Wish 6, (c): which members count as having answered a leader's Prepare.
ghost use Rattle.std.specs.Prelude.{◌≡◌};
ghost use Rattle.window.specs.Counting.{lacking_in, counts_in};

use super::{SLOTS, Window};
use decide::{Reply, Scalars};

impl Window {
    // Whether some Preparing slot from one place up to another has not been noted from a member.
    fn is_lacking(self, from: usize, to: usize, peer: u64) -> bool
        ensures { result ≡ lacking_in self peer from to }
    {
        if SLOTS < to || to <= from {
            return false;
        }
        self.slots[from..to].iter().any(|s| s.lacks_note(peer))
    }

    // Whether the member of a PrepareReply counts, at the trigger slot at place j; the reply has been noted.
    pub fn counts(self, sc: Scalars, j: usize, peer: u64, m: Reply) -> bool
        ensures { result ≡ counts_in sc self j peer m }
    {
        if SLOTS < self.len {
            return false;
        }
        if SLOTS <= j {
            return false;
        }
        if !sc.strict() {
            return m.slot == m.endprep;
        }
        let t = self.slots[j];
        if members::contains(t.leader.prepare_acks, peer) {
            return true;
        }
        if m.endprep < sc.start {
            return false;
        }
        let e = m.endprep - sc.start;
        if self.len as u64 <= e {
            return false;
        }
        let to = e as usize + 1;
        !self.is_lacking(j, to, peer)
    }
}
