//! A yard that is run past the last line that a text may have.

use std::alloc::{AllocError, Global};
use std::iter;
use text::Yard;

/// How many lines of a text are answered.
const LAST_LINE: u32 = 1_000_000;

/// The lines that open a controller in a yard of one.
const OPENING: [&[u8]; 4] = [b"controllers\t1", b"set\t0", b"seal", b"plans\t9\t4"];

/// The line after the opening, again and again.
const ROW: &[u8] = b"hear\t4";

/// Lines after the last one.
const LATER: [&[u8]; 7] = [
    ROW,
    b"controllers\t4",
    b"controllers\t0",
    b"set\t0",
    b"no line",
    b"",
    ROW,
];

/// What is expected of line `number` of the run, where every line after the opening is a row that is heard.
fn expected(heap: Global, number: u32) -> Result<String, AllocError> {
    let answer = match number {
        0..=2 | 4 => "ok",
        3 => "sealed\t0",
        _ => match number % 3 {
            2 => "round\t2",
            0 => "round\t3",
            _ => "closed\t4\ttaken",
        },
    };
    format!(in heap; "{number}\t{answer}\n")
}

/// Has a yard answer 1,000,000 lines: how many of the answers were not as expected.
fn run_to_the_end(heap: Global, yard: &mut Yard) -> Result<u32, AllocError> {
    let mut differ = 0u32;
    let lines = OPENING.into_iter().chain(iter::repeat(ROW));
    // counted by hand: the text that is expected is allocated, which may fail, and a closure of `filter` may not
    for (number, line) in (1..=LAST_LINE).zip(lines) {
        let answer = yard.answer(line);
        if answer.as_bytes() != expected(heap, number)?.as_bytes() {
            differ = differ.saturating_add(1);
        }
    }
    Ok(differ)
}

/// Gives a yard lines after its last one: how many were answered.
fn answered_later(yard: &mut Yard) -> usize {
    LATER
        .iter()
        .filter(|line| !yard.answer(line).as_bytes().is_empty() || yard.take_line(line).is_some())
        .count()
}

/// Prints how a yard fares at the last line of a text and after it.
pub fn show(rt: &HostRuntime) -> anyhow::Result<()> {
    let mut yard = Yard::new();
    let differ = run_to_the_end(rt.alloc(), &mut yard)?;
    println!(rt;
        "{LAST_LINE} lines on one yard, each answered with its number: {differ} not as expected"
    )?;
    let answered = answered_later(&mut yard);
    println!(rt; "lines after these, controllers\t4 too: {answered} answered")?;
    Ok(())
}
