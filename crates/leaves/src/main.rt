// Runs 01's merge table and the edges of each public function of the leaf crates, and prints what they answer.
#![tactic(auto)]

mod batches;
mod merges;
mod reads;
mod say;
mod sets;

use std::io;

fn main(rt: HostRuntime) -> io::Result<()> {
    let mut out = rt.stdout();
    merges::run(&mut out)?;
    sets::run(&mut out)?;
    batches::run(&mut out)?;
    reads::run(&mut out)?;
    Ok(())
}
