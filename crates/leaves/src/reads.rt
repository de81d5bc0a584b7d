// Tallies, open reads, and replies to one.
use crate::merges::value;
use crate::say::{Numbers, Shown};
use std::io;
use std::io::Write;
use tally::merge::{answer_of, merge};
use tally::open_reads::{no_reads, nothing_known, reply_to};
use tally::{Best, KeyBest, READS, Read, Reads, Tally};

fn of(count: usize, a: Best, b: Best, c: Best) -> Tally {
    let mut t = nothing_known(count);
    for (i, best) in [a, b, c].into_iter().enumerate() {
        t.bests[i] = KeyBest { best };
    }
    t
}

fn held(count: usize) -> Tally {
    of(count, Best::Slot(5), value(5, 50), Best::Nothing)
}

fn told(count: usize) -> Tally {
    of(count, Best::Slot(6), value(5, 51), Best::Slot(7))
}

// Nothing known; unequal lengths; nine keys of both, of the held one, of the reply; a conflict at the second of three keys; none; past the
// count; no keys.
fn tallies(out: &mut impl Write) -> io::Result<()> {
    for (ours, theirs) in [
        (nothing_known(3), nothing_known(3)),
        (held(2), told(3)),
        (held(3), told(2)),
        (held(9), told(9)),
        (held(9), told(3)),
        (held(3), told(9)),
        (held(3), told(3)),
        (held(3), of(3, value(5, 51), Best::Slot(6), value(7, 70))),
        (held(1), told(1)),
        (held(0), told(0)),
    ] {
        let m = merge(ours, theirs);
        let answer = m.outcome.err().map_or(0, |error| error.number());
        writeln!(out, "tally {answer}{}", Shown(m.tally))?;
    }
    Ok(())
}

fn answers(out: &mut impl Write) -> io::Result<()> {
    for (leader, best) in [
        (3, Best::Nothing),
        (3, Best::Slot(5)),
        (255, Best::Slot(5)),
        (3, value(5, 50)),
    ] {
        let a = answer_of(leader, best);
        writeln!(out, "answer {} {}", a.tag, a.value)?;
    }
    Ok(())
}

fn find(out: &mut impl Write, rs: &Reads, id: u64) -> io::Result<()> {
    writeln!(out, "find {id} {}", rs.find(id))
}

fn open(out: &mut impl Write, rs: &mut Reads, id: u64, count: usize) -> io::Result<()> {
    let opened = rs.open_read(id, count, [11, 12, 13, 14, 15, 16, 17, 18]);
    let answer = opened.err().map_or(0, |error| error.number());
    writeln!(out, "open {answer} {}", rs.count)
}

// No keys, nine, one, an id in use, eight; and the two that are open.
fn few(out: &mut impl Write, rs: &mut Reads) -> io::Result<()> {
    find(out, rs, 0)?;
    for (id, count) in [(1, 0), (1, 9), (1, 1), (1, 1), (2, 8)] {
        open(out, rs, id, count)?;
    }
    for r in &rs.reads[..2] {
        write!(out, "read {} {}{}", r.id, r.acks, Numbers(&r.keys))?;
        writeln!(out, "{}", Shown(r.tally))?;
    }
    Ok(())
}

// A read in use is written anew; a place that is not in use stays.
fn puts(out: &mut impl Write, rs: &Reads) -> io::Result<()> {
    let mut r = rs.reads[1];
    r.acks = 6;
    for at in 1..3 {
        let after = rs.put(at, r);
        let there = after.reads[at];
        writeln!(out, "put {} {} {}", after.count, there.id, there.acks)?;
    }
    Ok(())
}

fn close(out: &mut impl Write, rs: &mut Reads, at: usize) -> io::Result<()> {
    *rs = rs.close(at);
    writeln!(out, "close {} {}", rs.count, rs.reads[8].id)
}

// The seventeenth read, an id in use and no keys come to a full table; then the read with id 9 closes, and there is room.
fn full(out: &mut impl Write, rs: &mut Reads) -> io::Result<()> {
    for (id, count) in [(17, 1), (1, 1), (17, 0)] {
        open(out, rs, id, count)?;
    }
    for id in [9, 16, 17] {
        find(out, rs, id)?;
    }
    close(out, rs, 8)?;
    for id in [9, 16] {
        find(out, rs, id)?;
    }
    close(out, rs, 15)?;
    open(out, rs, 17, 1)?;
    find(out, rs, 17)
}

// A count above 16 is no table's: no place of it is in use, and there is no room.
fn unfit(out: &mut impl Write) -> io::Result<()> {
    let mut rs = no_reads();
    rs.count = READS + 1;
    find(out, &rs, 0)?;
    let mut after = rs;
    open(out, &mut after, 1, 1)?;
    close(out, &mut rs, 0)
}

fn reply(
    out: &mut impl Write,
    quorum: u64,
    peer: u64,
    leads: bool,
    list: Tally,
    r: Read,
) -> io::Result<Read> {
    let o = reply_to(quorum, peer, leads, list, r);
    let closing = o.outcome.ok().flatten();
    let closes = u64::from(closing.is_some());
    let answer = o.outcome.err().map_or(0, |error| error.number());
    write!(out, "reply {answer} {closes} {}", closing.unwrap_or(0))?;
    writeln!(out, " {}{}", o.read.acks, Shown(o.read.tally))?;
    Ok(o.read)
}

// A first reply, the same member again, unequal lengths, nine keys, a quorum of two. Then a quorum of three: one waits, the next conflicts at
// its second key, and is told again.
fn replies(out: &mut impl Write, r: Read) -> io::Result<Read> {
    let mut first = r;
    for (peer, list) in [
        (1, of(2, Best::Slot(4), value(5, 50), Best::Nothing)),
        (1, of(2, Best::Slot(9), Best::Slot(9), Best::Nothing)),
        (0, told(3)),
        (0, told(9)),
    ] {
        first = reply(out, 2, peer, false, list, first)?;
    }
    let second = of(2, value(4, 40), value(5, 50), Best::Nothing);
    reply(out, 2, 2, false, second, first)?;
    let mut third = first;
    for (peer, list) in [
        (2, second),
        (0, told(2)),
        (0, of(2, Best::Slot(6), value(5, 50), Best::Nothing)),
    ] {
        third = reply(out, 3, peer, false, list, third)?;
    }
    Ok(first)
}

// From the leader: a longer list, a shorter one, and from a member that has answered.
fn leads(out: &mut impl Write, r: Read) -> io::Result<()> {
    let long = of(3, value(9, 90), value(8, 80), Best::Slot(7));
    let short = of(1, value(9, 90), Best::Nothing, Best::Nothing);
    for (peer, list) in [(0, long), (0, short), (1, long)] {
        reply(out, 2, peer, true, list, r)?;
    }
    Ok(())
}

pub(crate) fn run(out: &mut impl Write) -> io::Result<()> {
    tallies(out)?;
    answers(out)?;
    let mut rs = no_reads();
    few(out, &mut rs)?;
    puts(out, &rs)?;
    for id in 3..17 {
        open(out, &mut rs, id, 1)?;
    }
    full(out, &mut rs)?;
    unfit(out)?;
    let mut one = no_reads();
    let _ = one.open_read(1, 2, [11, 12, 0, 0, 0, 0, 0, 0]);
    let r = replies(out, one.reads[0])?;
    leads(out, r)
}
