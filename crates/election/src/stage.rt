// Three members, each with its replica, and the calls that come to them. A call prints its line, the member and then the trace program's seven
// numbers, and its actions.
ghost use Rattle.std.specs.Prelude.{◌<◌};

use actions::{ROOM, ROW};
use replica::{Handled, Replica};
use std::io;
use std::io::Write;

// turn: how many calls were made, the one that made the replica among them.
#[derive(Clone, Copy)]
struct Seat {
    turn: u64,
    replica: Replica,
}

#[derive(Drop)]
pub(crate) struct Stage<'a, W> {
    out: &'a mut W,
    room: [u64; ROOM],
    seats: [Seat; 3],
}

fn line(
    out: &mut impl Write,
    member: usize,
    seat: &Seat,
    answer: u64,
    count: usize,
) -> io::Result<()> {
    let sc = seat.replica.sc;
    write!(out, "{member} {} {answer} {count}", seat.turn)?;
    writeln!(
        out,
        " {} {} {} {}",
        sc.bal_max_seen, sc.accept_bar, sc.commit_bar, sc.exec_bar
    )
}

// A member of a group of three that starts at 0.
fn made(out: &mut impl Write, member: usize, options: u64) -> io::Result<Seat> {
    let made = Replica::new(member as u64, 3, 0, options);
    let seat = Seat {
        turn: 1,
        replica: made.replica,
    };
    let answer = made.outcome.err().map_or(0, |refusal| refusal.number());
    line(out, member, &seat, answer, 0)?;
    Ok(seat)
}

impl<'a, W: Write> Stage<'a, W> {
    // Member 0 tells its commit bar at once.
    pub(crate) fn new(out: &'a mut W) -> io::Result<Stage<'a, W>> {
        let seats = [made(out, 0, 1)?, made(out, 1, 0)?, made(out, 2, 0)?];
        let room = [0; ROOM];
        Ok(Stage { out, room, seats })
    }

    // One call of a member's replica.
    pub(crate) fn call<F: FnOnce(Replica, &mut [u64]) -> Handled>(
        &mut self,
        member: usize,
        f: F,
    ) -> io::Result<()>
        requires callable { F.IsAlwaysCallable f }
        requires member { member < 3 }
    {
        let before = self.seats[member];
        let h = f(before.replica, &mut self.room);
        let seat = Seat {
            turn: before.turn.wrapping_add(1),
            replica: h.replica,
        };
        self.seats[member] = seat;
        line(self.out, member, &seat, h.answer(), h.count())?;
        for row in self.room.chunks_exact(ROW).take(h.count()) {
            write!(self.out, "A")?;
            for n in row {
                write!(self.out, " {n}")?;
            }
            writeln!(self.out)?;
        }
        Ok(())
    }
}
