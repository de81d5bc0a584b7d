// How to read the lines, in a column of 67 lines.
use crate::line;
use std::io;
use std::io::Write;

const OPENING: &str = "\
THE VOTE COUNT

Some machines keep one record together:
they are the members of a group, and what
they keep is put to the vote. The program
must know how many members have answered.
It does not add them up: it looks their
number up in a table. This is that table,
whole, a line for each set of members:
512 lines, from nobody to all nine.

MEMBERS AND GROUPS

A group has 1, 3, 5, 7 or 9 members. Each
has a place, counted from 0: a group of
three has the places 0, 1 and 2, a group
of five the places 0 to 4.

A quorum is more than half of a group:
";

const SET: &str = "
Two quorums of one group always share a
member.

THE COLUMNS

set      the set's number in the program:
         what its members add, together

";

const COLUMNS: &str = "
members  who is in it, each at its place;
         a dot is one who is not

count    how many they are: this column is
         the program's table

quorum   for each size of group: yes where
         they are a quorum of it, no where
         they are too few, and nothing
         where the group lacks one of them

AN EXAMPLE

";

const CLOSING: &str = "
Set 19 is 1 + 2 + 16: members 0, 1 and 4.
They are three: a quorum of five, too few
in seven or nine. A group of one or three
has no member 4.

TO CHECK IT

Take any line: add up its number from its
members' places, and count them. That
every count is right is proved, once over
the whole table; with one number changed
the proof is refused, and no program is
made of it.

";

pub(crate) fn print(out: &mut impl Write) -> io::Result<()> {
    out.write_all(OPENING.as_bytes())?;
    for n in [1, 3, 5, 7, 9] {
        writeln!(out, "  {} of {n}", members::quorum(n))?;
    }
    out.write_all(SET.as_bytes())?;
    places(out)?;
    out.write_all(COLUMNS.as_bytes())?;
    line::names(out)?;
    line::one(out, 19)?;
    out.write_all(CLOSING.as_bytes())
}

// The nine places, and under each what the member there adds to a set's number.
fn places(out: &mut impl Write) -> io::Result<()> {
    write!(out, "place")?;
    for member in 0..9 {
        write!(out, " {member:>3}")?;
    }
    write!(out, "\nadds ")?;
    for member in 0..9 {
        write!(out, " {:>3}", members::with(0, member))?;
    }
    writeln!(out)
}
