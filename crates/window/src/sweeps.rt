// The window's loops that change each slot of a range and write that slot's actions. What becomes of one slot is a type's turn; the loop stands once.
ghost use Rattle.std.specs.Prelude.{◌≡◌, List, [], ◌∷◌, ℕ, ◌+◌};
ghost use Rattle.actions.specs.Actions.{Act, write_at};
ghost use Rattle.slots.specs.declared.Slot.{Slot};
ghost use Rattle.slots.specs.Slots.{prepared_slot, redone_slot, entered_slot, marked_slot, passed_slot};
ghost use Rattle.window.specs.Acts.{promise, enter_acts, redo_acts, mark_acts, pass_acts};
ghost use Rattle.window.specs.Sweeps.{TwoFit, ranged, Turns, SweptIn, PromisesIn};

use super::{Placed, SLOTS, Turned, Window};
use actions::{ACTIONS, Action, Mark, Order, Promise, Proposal, ROOM, put_action};
use decide::LAST_START;
use slots::{COMMITTED, LeaderBook, PREPARING, ReplicaBook, Slot};

// Whether a range is one of places of the window, with two places of the room for each, a room of 192 actions and a start as a fit record has it.
#[tactic(auto, unfolding(crate::specs::Sweeps::ranged))]
fn in_range(from: usize, to: usize, k: usize, room: usize, start: u64) -> bool
    ensures { result ≡ ranged from to k room start }
{
    from <= to
        && to <= SLOTS
        && k <= ACTIONS
        && k + 2 * (to - from) <= ACTIONS
        && ROOM <= room
        && start <= LAST_START
}

// A PrepareBal entry for a slot, at the room's n-th place.
fn put_promise(room: &mut [u64], n: usize, slot: u64, ballot: u64)
    requires { TwoFit n room.old }
    ensures { room.new ≡ write_at room.old n (promise slot ballot ∷ []) }
{
    let entry = Action::PrepareBal(Promise { slot, ballot });
    put_action(room, n, entry, [0u64; 8]);
}

// What a sweep makes of a slot, and the actions that it writes for it, by the slot's number: at most two.
trait Sweep: Copy {
    ghost after: { Self → Slot → Slot };

    ghost acts: { Self → ℕ → Slot → List Act };

    fn turn(self, s: Slot, room: &mut [u64], n: usize, slot: u64) -> Turned
        requires { TwoFit n room.old }
        ensures { Turns (after self s) (acts self slot s) n room.old result room.new };
}

// Prepare: each slot Preparing, and its entry.
#[derive(Clone, Copy)]
struct Preparing {
    strict: bool,
    ballot: u64,
    book: ReplicaBook,
}

impl Sweep for Preparing {
    ghost after = { λ p s. prepared_slot p.strict p.ballot p.book s };

    ghost acts = { λ p slot s. promise slot p.ballot ∷ [] };

    fn turn(self, s: Slot, room: &mut [u64], n: usize, slot: u64) -> Turned {
        put_promise(room, n, slot, self.ballot);
        Turned {
            next: n + 1,
            slot: s.prepared(self.strict, self.ballot, self.book),
        }
    }
}

// Step-up: each slot below Committed is prepared anew, and its entry.
#[derive(Clone, Copy)]
struct Redoing {
    ballot: u64,
    book: LeaderBook,
}

impl Sweep for Redoing {
    ghost after = { λ p s. redone_slot p.ballot p.book s };

    ghost acts = { λ p slot s. redo_acts slot p.ballot s };

    fn turn(self, s: Slot, room: &mut [u64], n: usize, slot: u64) -> Turned {
        let t = s.redone(self.ballot, self.book);
        // Kept: here and below: a status is a number, see `slots::NULL`.
        if COMMITTED <= s.status {
            return Turned { next: n, slot: t };
        }
        put_promise(room, n, slot, self.ballot);
        Turned {
            next: n + 1,
            slot: t,
        }
    }
}

// Quorum: each Preparing slot enters Accept, with its entry and its message.
#[derive(Clone, Copy)]
struct Entering {
    strict: bool,
    ballot: u64,
}

impl Sweep for Entering {
    ghost after = { λ p s. entered_slot p.strict p.ballot s };

    ghost acts = { λ p slot s. enter_acts slot p.ballot s };

    fn turn(self, s: Slot, room: &mut [u64], n: usize, slot: u64) -> Turned {
        let t = s.entered(self.strict, self.ballot);
        if s.status != PREPARING {
            return Turned { next: n, slot: t };
        }
        let batch = s.batch;
        let content = Proposal {
            slot,
            ballot: self.ballot,
            batch: batch.id,
            count: batch.count,
        };
        put_action(room, n, Action::AcceptData(content), batch.keys);
        put_action(room, n + 1, Action::Accept(content), batch.keys);
        Turned {
            next: n + 2,
            slot: t,
        }
    }
}

// CommitNotice: each slot below Committed is marked, and its entry, which says the slot's own ballot.
#[derive(Clone, Copy)]
struct Marking;

impl Sweep for Marking {
    ghost after = { λ p s. marked_slot s };

    ghost acts = { λ p slot s. mark_acts slot s };

    fn turn(self, s: Slot, room: &mut [u64], n: usize, slot: u64) -> Turned {
        let t = s.marked();
        if COMMITTED <= s.status {
            return Turned { next: n, slot: t };
        }
        let entry = Action::CommitSlot(Mark {
            slot,
            ballot: s.ballot,
        });
        put_action(room, n, entry, [0u64; 8]);
        Turned {
            next: n + 1,
            slot: t,
        }
    }
}

// commit_bar passes each slot: an empty batch is executed at once, another is ordered to be where it is Committed.
#[derive(Clone, Copy)]
struct Passing;

impl Sweep for Passing {
    ghost after = { λ p s. passed_slot s };

    ghost acts = { λ p slot s. pass_acts slot s };

    fn turn(self, s: Slot, room: &mut [u64], n: usize, slot: u64) -> Turned {
        let t = s.passed();
        let batch = s.batch;
        if batch.id == 0 {
            return Turned { next: n, slot: t };
        }
        if s.status != COMMITTED {
            return Turned { next: n, slot: t };
        }
        let order = Action::Execute(Order {
            slot,
            batch: batch.id,
            count: batch.count,
        });
        put_action(room, n, order, batch.keys);
        Turned {
            next: n + 1,
            slot: t,
        }
    }
}

// PrepareBal entries for the slots at the places from one up to another, from the room's k-th place on; none outside the bounds.
// Kept: a loop of its own beside `sweep`: it changes no slot and takes no window. And a room with a place, here and below: 01, "action records in a lent
// buffer of numbers".
pub fn put_promises(
    room: &mut [u64],
    k: usize,
    from: usize,
    to: usize,
    start: u64,
    ballot: u64,
) -> usize
    ensures { PromisesIn from to k start ballot room.old result room.new }
{
    if !in_range(from, to, k, room.len(), start) {
        return k;
    }
    let mut n = k;
    // Kept: n beside i: the new form is no plainer: `k + (i - from)` in the loop and `k + (to - from)` after it would say one place twice.
    for i in from..to {
        put_promise(room, n, start + i as u64, ballot);
        n += 1;
    }
    n
}

impl Window {
    // Each slot at the places from one up to another changed by a sweep, and its actions written from the room's k-th place on; none outside the bounds.
    // Kept: the window by value, as 01 asks: "structs with methods on `mut self` that return the new state" (docs/DECISIONS.md); in searches.rt too.
    fn sweep<S: Sweep>(
        mut self,
        sweep: S,
        room: &mut [u64],
        k: usize,
        from: usize,
        to: usize,
        start: u64,
    ) -> Placed
        ensures { SweptIn (λ i s. S.after sweep s) (λ i s. S.acts sweep (start + i) s) from to k start self room.old result room.new }
    {
        if !in_range(from, to, k, room.len(), start) {
            return Placed {
                next: k,
                window: self,
            };
        }
        let mut n = k;
        // Kept: by index: a proof knows nothing of what an adapter of `iter_mut`, as `enumerate`, hands out; `iter_mut` alone would count i by hand.
        for i in from..to {
            let p = sweep.turn(self.slots[i], room, n, start + i as u64);
            self.slots[i] = p.slot;
            n = p.next;
        }
        Placed {
            next: n,
            window: self,
        }
    }

    // Kept: five public names for one sweep, since a turn counts on room for two actions and nothing that a host can call has a demand (`Sweep::turn`,
    // `TwoFit`): the trait stays inside the crate.
    // Prepare: the slots at the places from..to become Preparing, with a PrepareBal entry for each; `next` is the place after the last entry.
    pub fn prepare_range(
        self,
        room: &mut [u64],
        k: usize,
        from: usize,
        to: usize,
        start: u64,
        strict: bool,
        ballot: u64,
        book: ReplicaBook,
    ) -> Placed
        ensures { SweptIn (λ i s. prepared_slot strict ballot book s) (λ i s. promise (start + i) ballot ∷ []) from to k start self room.old result room.new }
    {
        let preparing = Preparing {
            strict,
            ballot,
            book,
        };
        self.sweep(preparing, room, k, from, to, start)
    }

    // Step-up: the same for the slots of a range below Committed; a Committed one becomes external with no entry, an Executed one stays; `next` as above.
    pub fn redo_range(
        self,
        room: &mut [u64],
        k: usize,
        from: usize,
        to: usize,
        start: u64,
        ballot: u64,
        book: LeaderBook,
    ) -> Placed
        ensures { SweptIn (λ i s. redone_slot ballot book s) (λ i s. redo_acts (start + i) ballot s) from to k start self room.old result room.new }
    {
        self.sweep(Redoing { ballot, book }, room, k, from, to, start)
    }

    // Quorum: the Preparing slots of a range enter Accept, with an AcceptData entry and an Accept message for each, two places; `next` as above.
    pub fn enter_range(
        self,
        room: &mut [u64],
        k: usize,
        from: usize,
        to: usize,
        start: u64,
        strict: bool,
        ballot: u64,
    ) -> Placed
        ensures { SweptIn (λ i s. entered_slot strict ballot s) (λ i s. enter_acts (start + i) ballot s) from to k start self room.old result room.new }
    {
        self.sweep(Entering { strict, ballot }, room, k, from, to, start)
    }

    // CommitNotice: the slots of a range below Committed become so, with a CommitSlot entry for each at its own ballot; `next` as above.
    pub fn mark_range(
        self,
        room: &mut [u64],
        k: usize,
        from: usize,
        to: usize,
        start: u64,
    ) -> Placed
        ensures { SweptIn (λ i s. marked_slot s) (λ i s. mark_acts (start + i) s) from to k start self room.old result room.new }
    {
        self.sweep(Marking, room, k, from, to, start)
    }

    // commit_bar passes a range: a slot of an empty batch becomes Executed, any other that is Committed gets an Execute order; `next` as above.
    pub fn pass_range(
        self,
        room: &mut [u64],
        k: usize,
        from: usize,
        to: usize,
        start: u64,
    ) -> Placed
        ensures { SweptIn (λ i s. passed_slot s) (λ i s. pass_acts (start + i) s) from to k start self room.old result room.new }
    {
        self.sweep(Passing, room, k, from, to, start)
    }
}
