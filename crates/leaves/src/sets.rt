// Sets, groups and ballots.
use std::io;
use std::io::Write;

fn sets(out: &mut impl Write) -> io::Result<()> {
    for (set, member) in [(5, 0), (5, 1), (5, 2), (256, 8), (255, 8), (512, 9)] {
        let has = u64::from(members::contains(set, member));
        writeln!(out, "has {set} {member} {has}")?;
    }
    for (set, member) in [(0, 0), (5, 1), (5, 2), (255, 8), (0, 9), (512, 0)] {
        writeln!(out, "with {set} {member} {}", members::with(set, member))?;
    }
    Ok(())
}

fn counts(out: &mut impl Write) -> io::Result<()> {
    for set in [0, 1, 5, 256, 511, 512] {
        writeln!(out, "count {set} {}", members::count(set))?;
    }
    for (set, n) in [
        (0, 0),
        (1, 0),
        (7, 3),
        (8, 3),
        (511, 9),
        (512, 9),
        (u64::MAX, 63),
        (u64::MAX, 64),
    ] {
        let within = u64::from(members::within(set, n));
        writeln!(out, "within {set} {n} {within}")?;
    }
    Ok(())
}

fn groups(out: &mut impl Write) -> io::Result<()> {
    for n in 0..11 {
        let size = u64::from(members::is_group_size(n));
        writeln!(out, "group {n} {size} {}", members::quorum(n))?;
    }
    Ok(())
}

// Whether it has an owner, and which.
fn owner(ballot: u64) -> (u64, u64) {
    match members::owner_of(ballot) {
        None => (0, 0),
        Some(member) => (1, member),
    }
}

fn ballots(out: &mut impl Write) -> io::Result<()> {
    for ballot in [0, 256, 257, 511, u64::MAX] {
        let (owned, member) = owner(ballot);
        writeln!(out, "owner {ballot} {owned} {member}")?;
    }
    for (ballot, member) in [(256, 0), (257, 0), (257, 1), (511, 254), (256, 255)] {
        let owns = u64::from(members::is_owner(ballot, member));
        writeln!(out, "owns {ballot} {member} {owns}")?;
    }
    Ok(())
}

// The answer and the ballot.
fn next(max: u64, id: u64) -> (u64, u64) {
    match members::next_ballot(max, id) {
        Some(ballot) => (0, ballot),
        None => (8, 0),
    }
}

fn rounds(out: &mut impl Write) -> io::Result<()> {
    // The round 2^56 - 1 begins here, and is the last.
    let last = 18446744073709551360;
    for (max, id) in [
        (0, 0),
        (257, 2),
        (511, 0),
        (512, 8),
        (last - 1, 8),
        (last - 1, 254),
        (last, 8),
        (u64::MAX, 0),
        (0, 255),
    ] {
        let (answer, ballot) = next(max, id);
        writeln!(out, "next {max} {id} {answer} {ballot}")?;
    }
    Ok(())
}

pub(crate) fn run(out: &mut impl Write) -> io::Result<()> {
    sets(out)?;
    counts(out)?;
    groups(out)?;
    ballots(out)?;
    rounds(out)
}
