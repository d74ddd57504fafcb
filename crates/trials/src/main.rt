//! Random trials of the proved code against a second implementation that is as plain as can be.
//! With the word `time` it measures both instead.

#![tactic(auto)]

mod dice;
mod drafts;
mod naive;
mod plain_rounds;
mod slots;
mod timing;
mod tries;

use std::env;

fn run(rt: &HostRuntime) -> anyhow::Result<()> {
    if env::args(rt)?.skip(1).any(|word| word.as_str() == "time") {
        return timing::measure(rt);
    }
    drafts::compare(rt)?;
    slots::compare(rt)
}

fn main(rt: HostRuntime) -> anyhow::Result<()> {
    run(&rt)
}
