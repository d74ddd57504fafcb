//! How long sealing and hearing take, here and in the second implementation.

use crate::naive::{Naive, Unsealed};
use crate::plain_rounds::{Answer, Plain, Word};
use crate::tries::more;
use anyhow::Context;
use depot::{Plan, PlanBook};
use engine::{Controller, Heard, Poll, Row};
use std::alloc::{AllocError, Global};
use std::time::Instant;
use std::{array, io};
use structure::Group;
use survivor::{Draft, Table};

/// How many rows are heard to measure one.
const ROWS: u32 = 100_000;

/// 64 sets of eleven of sixteen controllers: any three share one, and the least core has several.
fn wide_sets(heap: Global) -> Result<Vec<Group>, AllocError> {
    (0..=u16::MAX)
        .filter(|group| group.count_ones() == 11)
        .step_by(67)
        .take(64)
        .collect(heap)
}

/// Measures sealing, and gives the table.
fn sealing(rt: &HostRuntime, sets: &[Group]) -> anyhow::Result<Table> {
    let mut draft = Draft::new(16)?;
    let mut naive = Naive::new(rt.alloc(), 16);
    for set in sets {
        draft.add(*set)?;
        naive.add(*set)??;
    }
    let mut table = Table::new();
    let start = Instant::now(rt)?;
    for _ in 0..100 {
        draft.seal(&mut table)?;
    }
    let ours = start.elapsed(rt)?.as_micros();
    println!(rt;
        "{} sets of 16 controllers, {} leads",
        draft.sets().len(),
        table.leads().len()
    )?;
    println!(rt; "sealed 100 times in {ours} us")?;
    let start = Instant::now(rt)?;
    let answer = match naive.seal() {
        Ok(_) => 0,
        Err(Unsealed::NoSet) => 13,
        Err(Unsealed::NoneShared) => 14,
    };
    let theirs = start.elapsed(rt)?.as_micros();
    println!(rt; "second implementation, once (answers {answer}), in {theirs} us")?;
    Ok(table)
}

/// Hears a row again and again: how long once takes, in ns, and how often it gave a value.
fn measured<F: FnMut() -> bool>(rt: &HostRuntime, mut hear: F) -> io::Result<(u128, u32)>
    requires { F.IsAlwaysCallable hear }
{
    let mut given = 0;
    let start = Instant::now(rt)?;
    for _ in 0..ROWS {
        if hear() {
            more(&mut given);
        }
    }
    Ok((start.elapsed(rt)?.as_nanos() / u128::from(ROWS), given))
}

/// Measures what a row costs: in whole slots, in poll rounds alone, the dearest, and in whole slots of the second implementation.
fn hearing(rt: &HostRuntime, table: &Table, name: &str, row: &[Word]) -> anyhow::Result<()> {
    let book = PlanBook::new(9_999)?;
    let mut controller = Controller::open(*table, book, Plan(1)).map_err(
        |unopened| unopened.refusal,
    )?;
    let (ours, slots) = measured(
        rt,
        || matches!(controller.hear(row), Ok(Heard::Closed(_, _))),
    )?;

    let book = PlanBook::new(9_999)?;
    let (poll, given) = measured(rt, || {
        Row::check(table, &book, row).is_ok_and(|row| Poll::open(Plan(1))
            .hear(&row)
            .speak()
            .is_some())
    })?;

    let mut naive = Naive::new(rt.alloc(), 16);
    for set in table.sets() {
        naive.add(*set)??;
    }
    let mut plain = Plain::open(naive, 16, 9_999, Plan(1)).context("plan 1 fits")?;
    let (theirs, also) = measured(rt, || matches!(plain.hear(row), Ok(Answer::Closed(_, _))))?;
    println!(rt;
        "{name}: a row of a slot {ours} ns ({slots} slots), of a poll {poll} ns ({given} gave a value)"
    )?;
    println!(rt; "second implementation: a row of a slot {theirs} ns ({also} slots)")?;
    Ok(())
}

pub fn measure(rt: &HostRuntime) -> anyhow::Result<()> {
    let sets = wide_sets(rt.alloc())?;
    let table = sealing(rt, sets.as_slice())?;
    let different: [Option<Plan>; 16] = array::from_fn(|place| Some(Plan(place as u32 + 1)));
    hearing(rt, &table, "16 values", &different)?;
    hearing(rt, &table, "one value", &[Some(Plan(1)); 16])
}
