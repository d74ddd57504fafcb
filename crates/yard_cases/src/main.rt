//! A table of yard texts with their answers. The script on standard input has cases, each on a new yard: lines of the text, and the
//! answer that is expected to each. Each case is run, and a line of the output tells whether it was answered as expected. Then a
//! yard is run past the last line that a text may have.

#![tactic(auto)]

mod cases;
mod escapes;
mod past_the_end;
mod script;

use cases::Run;
use std::io;

/// Runs each line of a script.
fn run_script<'a>(rt: &HostRuntime, script: &'a str) -> anyhow::Result<()> {
    let mut cases: Run<'a> = Run::new();
    for (number, line) in (1usize..).zip(script.lines()) {
        cases.read(rt, line).inspect_err(|_| {
            let _ = eprintln!(rt; "yard_cases: line {number} of the script is at fault");
        })?;
    }
    cases.end(rt)
}

fn run(rt: &HostRuntime) -> anyhow::Result<()> {
    let script = io::read_to_string(rt.alloc(), rt.stdin())?;
    run_script(rt, script.as_str())?;
    past_the_end::show(rt)
}

fn main(rt: HostRuntime) -> anyhow::Result<()> {
    run(&rt)
}
