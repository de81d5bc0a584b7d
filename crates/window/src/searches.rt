// Searches and growth of the window. It has 64 places: each function first tests that no more are asked for, and else does nothing.
// Kept: these tests, here and in the other files: what a range past the window or a length above 64 gives is promised (specs/Bounded.antt, Kept.antt).
// Kept: `from` and `to`, here and in the other files: a Range is not Copy and would first be taken apart, to index by it and then to read its ends.
ghost use Rattle.std.specs.Prelude.{◌≡◌};
ghost use Rattle.base.specs.Pick.{pick, larger};
ghost use Rattle.slots.specs.Slots.{null_slot, appended_slot};
ghost use Rattle.window.specs.Window.{no_slots};
ghost use Rattle.window.specs.Bounded.{filled_in, last_used_in, last_open_in, any_above_in, stop_in, executed_in};

use super::{SLOTS, Window};
use slots::{COMMITTED, EXECUTED, LeaderBook, NULL, Slot, appended_slot, null_slot};

// No slots.
pub fn no_slots() -> Window
    ensures { result ≡ no_slots }
{
    Window {
        len: 0,
        slots: [null_slot(); SLOTS],
    }
}

// The larger of two places.
// Kept: what may not change: a public name, promised by its row in docs/PROMISES.md, for a host to call; it is `max`, whose promise is the library's.
pub fn larger_of(a: usize, b: usize) -> usize
    ensures { result ≡ larger a b }
{
    a.max(b)
}

impl Window {
    // A slot at each place from the end up to n. The window is lent: by value it would be copied once more, 18 KB.
    fn fill_to(&mut self, n: usize, slot: Slot)
        ensures { self.new ≡ filled_in slot self.old n }
    {
        if SLOTS < n {
            return;
        }
        if n <= self.len {
            return;
        }
        let at = self.len;
        self.slots[at..n].fill(slot);
        self.len = n;
    }

    // Null slots up to n places.
    pub fn grow_to(mut self, n: usize) -> Window
        ensures { result ≡ filled_in null_slot self n }
    {
        self.fill_to(n, null_slot());
        self
    }

    // Slots that a leader did not know at its step-up, up to n places.
    pub fn append(mut self, n: usize, ballot: u64, book: LeaderBook) -> Window
        ensures { result ≡ filled_in (appended_slot ballot book) self n }
    {
        self.fill_to(n, appended_slot(ballot, book));
        self
    }

    // The last place in use whose slot is not null, 0 if there is none.
    // Kept: a loop, here and in last_open: tried with `rposition`, whose promise is one of calls, not of a list, and the check found no proof.
    pub fn last_used(self) -> usize
        ensures { result ≡ last_used_in self }
    {
        if SLOTS < self.len {
            return 0;
        }
        let mut found = 0;
        for i in 0..self.len {
            if NULL < self.slots[i].status {
                found = i;
            }
        }
        found
    }

    // The last place in use whose slot is below Committed, the length if there is none.
    pub fn last_open(self) -> usize
        ensures { result ≡ last_open_in self }
    {
        if SLOTS < self.len {
            return self.len;
        }
        let mut found = self.len;
        for i in 0..self.len {
            if self.slots[i].status < COMMITTED {
                found = i;
            }
        }
        found
    }

    // Whether some slot from one place up to another has a larger ballot.
    pub fn any_above(self, from: usize, to: usize, ballot: u64) -> bool
        ensures { result ≡ any_above_in self ballot from to }
    {
        if SLOTS < to || to <= from {
            return false;
        }
        self.slots[from..to].iter().any(|s| ballot < s.ballot)
    }

    // The first place from one up to another whose slot is below a ballot or a status, or the end.
    // Kept: a status by its number, here and where one is counted or changes: any number may be given (`stop_in`, `counted_in`, `changed`).
    pub fn stop(self, from: usize, to: usize, ballot: u64, status: u64) -> usize
        ensures { result ≡ stop_in self ballot status from to }
    {
        if SLOTS < to || to <= from {
            return from;
        }
        let found = self.slots[from..to]
            .iter()
            .position(|s| s.ballot < ballot || s.status < status);
        from + found.unwrap_or(to - from)
    }

    // The first place from one up to another whose slot is not Executed, or the end.
    pub fn executed_to(self, from: usize, to: usize) -> usize
        ensures { result ≡ executed_in self from to }
    {
        if SLOTS < to || to <= from {
            return from;
        }
        let found = self.slots[from..to]
            .iter()
            .position(|s| s.status != EXECUTED);
        from + found.unwrap_or(to - from)
    }
}
