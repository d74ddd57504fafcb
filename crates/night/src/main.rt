//! A night at the depot, to look at: the installer's wiring, whole slots with liars, then the grants of a board.

#![tactic(auto)]

mod grants;
mod slots;
mod wiring;

fn run(rt: &HostRuntime) -> anyhow::Result<()> {
    wiring::show(rt)?;
    println!(rt)?;
    slots::show(rt)?;
    println!(rt)?;
    println!(rt; "A board of five bays on a feed of 100 A.")?;
    grants::show(rt)
}

fn main(rt: HostRuntime) -> anyhow::Result<()> {
    run(&rt)
}
