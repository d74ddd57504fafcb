//! The worked cases, run: each line has a case and what the code answered.

#![tactic(auto)]

mod drafts;
mod stages;
mod thresholds;
mod worked;

fn run(rt: &HostRuntime) -> anyhow::Result<()> {
    println!(rt;
        "{} worked cases follow from the definitions.",
        worked::worked_cases()
    )?;
    println!(rt)?;
    drafts::sealing(rt)?;
    println!(rt)?;
    drafts::adding(rt)?;
    println!(rt)?;
    drafts::enough(rt)?;
    println!(rt)?;
    thresholds::making(rt)?;
    println!(rt)?;
    thresholds::enough(rt)?;
    println!(rt)?;
    thresholds::greatest(rt)?;
    println!(rt)?;
    stages::rounds(rt)
}

fn main(rt: HostRuntime) -> anyhow::Result<()> {
    run(&rt)
}
