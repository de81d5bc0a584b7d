// One set's line: its number, its members, how many they are, and whether they are a quorum of each group that has them all.
use std::io;
use std::io::Write;

// Under the names where a column begins; an empty line where it ends.
pub(crate) fn print(out: &mut impl Write, set: u64) -> io::Result<()> {
    if set % 64 == 0 {
        names(out)?;
    }
    one(out, set)?;
    if set % 64 == 63 {
        writeln!(out)?;
    }
    Ok(())
}

pub(crate) fn names(out: &mut impl Write) -> io::Result<()> {
    writeln!(out, "                    quorum of a group of")?;
    writeln!(out, "set  members  count    1   3   5   7   9")
}

// A member's own number, or a dot where it is not in the set.
pub(crate) fn one(out: &mut impl Write, set: u64) -> io::Result<()> {
    write!(out, "{set:>3}  ")?;
    for member in 0..9 {
        if members::contains(set, member) {
            write!(out, "{member}")?;
        } else {
            write!(out, ".")?;
        }
    }
    write!(out, "    {} ", members::count(set))?;
    for n in [1, 3, 5, 7, 9] {
        out.write_all(verdict(set, n).as_bytes())?;
    }
    writeln!(out)
}

// Four places wide; nothing where a group of n lacks a member of the set.
fn verdict(set: u64, n: u64) -> &'static str {
    if !members::within(set, n) {
        "    "
    } else if members::count(set) < members::quorum(n) {
        "  no"
    } else {
        " yes"
    }
}
