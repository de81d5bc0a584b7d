// Prints the vote count for people who don't write code: a line for each of the 512 sets of members, under a heading that says how to read it.
//
// The text is made of nine columns of 67 lines, the heading and 64 sets each, so that three pages hold it side by side.
#![tactic(auto)]

mod heading;
mod line;

use std::io;

fn main(rt: HostRuntime) -> io::Result<()> {
    let mut out = rt.stdout();
    heading::print(&mut out)?;
    for set in 0..512 {
        line::print(&mut out, set)?;
    }
    Ok(())
}
