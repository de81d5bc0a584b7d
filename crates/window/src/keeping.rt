// 02, Wish 1: the summary, asked and kept. It follows from small values; slots are looked at in the fit test's one pass, and where a range must be counted.
ghost use Rattle.std.specs.Prelude.{◌≡◌, ◌<◌, ◌+◌, ◌&&◌, leb, eqb};
ghost use Rattle.base.specs.Pick.{pick};
ghost use Rattle.window.specs.Kept.{recounted, changed, is_passed, prepared_from, counted_in, survey_of, surveyed};

use super::{SLOTS, Summary, Survey, Window};
use slots::{ACCEPTING, COMMITTED};

// A count of slots, where one of them counted before or counts now.
fn recount(n: u64, before: bool, now: bool) -> u64
    ensures { result ≡ recounted n before now }
{
    if before == now {
        return n;
    }
    if before {
        return n.saturating_sub(1);
    }
    if n < SLOTS as u64 { n + 1 } else { n }
}

impl Summary {
    // The first slot not committed, by its number; the log end if there is none.
    pub fn first_open(self) -> u64
        ensures { result ≡ self.first }
    {
        self.first
    }

    // How many slots at or above commit_bar are Accepting.
    pub fn count_accepting(self) -> u64
        ensures { result ≡ self.accepting }
    {
        self.accepting
    }

    // One slot went from one status to another.
    pub fn changed(self, commit_bar: u64, slot: u64, before: u64, now: u64) -> Summary
        ensures { result ≡ changed self commit_bar slot before now }
    {
        let first = if now < COMMITTED {
            self.first.min(slot)
        } else {
            self.first
        };
        let many = recount(self.accepting, before == ACCEPTING, now == ACCEPTING);
        let accepting = if slot < commit_bar {
            self.accepting
        } else {
            many
        };
        Summary { first, accepting }
    }

    // Whether the slot that was the first open one is none any more.
    pub fn is_passed(self, slot: u64, now: u64) -> bool
        ensures { result ≡ is_passed self slot now }
    {
        slot == self.first && COMMITTED <= now
    }

    // Prepare: no slot from the trigger on is Accepting then; `below` are, between commit_bar and the trigger.
    pub fn prepared_from(self, strict: bool, trigger: u64, below: u64) -> Summary
        ensures { result ≡ prepared_from strict self trigger below }
    {
        let first = if strict {
            self.first
        } else {
            self.first.min(trigger)
        };
        Summary {
            first,
            accepting: below,
        }
    }
}

// The place of the first open slot up to a place, where it is known up to the place before.
fn next_open(first: usize, i: usize, status: u64) -> usize
    requires { i < 64 }
    ensures { result ≡ pick (eqb first i && leb 3 status) (i + 1) first }
{
    if first == i && COMMITTED <= status {
        i + 1
    } else {
        first
    }
}

impl Window {
    // How many slots from one place up to another have a status.
    pub fn count_at(self, status: u64, from: usize, to: usize) -> u64
        ensures { result ≡ counted_in self status from to }
    {
        if SLOTS < to || to <= from {
            return 0;
        }
        self.slots[from..to]
            .iter()
            .filter(|s| s.status == status)
            .count() as u64
    }

    // Kept: one loop for three things, as the slots are walked once (docs/DECISIONS.md, "The test for 14"); by index: `next_open` and `from` speak of places.
    // One pass: the place of the first open slot, and how many from a place on are Accepting; none where a slot in use is unfit, or more than 64 are in use.
    pub fn survey(self, group: u64, from: usize) -> Option<Survey>
        ensures { survey_of result ≡ surveyed group from self }
    {
        if SLOTS < self.len {
            return None;
        }
        let mut first = 0;
        let mut accepting = 0;
        for i in 0..self.len {
            let s = self.slots[i];
            if !s.is_fit(group) {
                return None;
            }
            first = next_open(first, i, s.status);
            accepting += u64::from(from <= i && s.status == ACCEPTING);
        }
        Some(Survey { first, accepting })
    }
}
