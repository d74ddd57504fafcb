//! Random grants and plans, given to the board and the plan book and to a second, plain implementation of each. Prints how often
//! the two differ.

#![tactic(auto)]

mod numbers;
mod plain;

use depot::{Board, Grant, Plan, PlanBook};
use duty::{Duty, DutyRefusal, Outcome};
use numbers::Numbers;
use plain::{Answer, PlainBoard, PlainBook};
use std::alloc::Global;
use std::fmt;

/// How many boards are tried, and how many grants each is given.
const BOARDS: u32 = 200;

const GRANTS: u32 = 250;

/// How often each answer came, and how often the two implementations differed.
#[derive(Clone, Copy, Default)]
struct Tally {
    taken: u64,
    aside: u64,
    refused: u64,
    differing: u64,
}

impl Tally {
    /// Counts an answer, and whether the other implementation agrees.
    fn count(&mut self, answer: Answer, agrees: bool) {
        let counter = match answer {
            Ok(Outcome::Taken) => &mut self.taken,
            Ok(Outcome::Aside(_)) => &mut self.aside,
            Err(DutyRefusal::Unfit) => &mut self.refused,
        };
        *counter = counter.saturating_add(1);
        if !agrees {
            self.differing = self.differing.saturating_add(1);
        }
    }
}

impl fmt::Display for Tally {
    fn fmt<W: fmt::Write>(&self, f: &mut fmt::Formatter<W>) -> fmt::Result {
        write!(
            f,
            "{} taken, {} set aside, {} refused, {} differing",
            self.taken, self.aside, self.refused, self.differing
        )
    }
}

/// The trials: where their numbers come from, and what has come of them.
#[derive(Drop)]
struct Trials {
    heap: Global,
    numbers: Numbers,
    grants: Tally,
    plans: Tally,
}

impl Trials {
    fn try_board(&mut self) -> anyhow::Result<()> {
        let numbers = &mut self.numbers;
        let bays = 1 + numbers.below(64);
        // mostly a feed that the grants come up against
        let feed = numbers.below(1 + bays.saturating_mul(500).min(32_000));
        let mut board = Board::new(bays, feed)?;
        let mut plain = PlainBoard::new(self.heap, bays, feed);
        for _ in 0..GRANTS {
            let grant = Grant {
                bay: numbers.below(bays.saturating_add(2)),
                amps: numbers.below(1_050),
            };
            let answer = board.take(&grant);
            let agrees = plain.take(grant)? == answer && plain.agrees(&board);
            self.grants.count(answer, agrees);
        }
        Ok(())
    }

    fn try_book(&mut self) -> anyhow::Result<()> {
        let numbers = &mut self.numbers;
        let highest = 1 + numbers.below(20);
        let mut book = PlanBook::new(highest)?;
        let mut plain = PlainBook::new(self.heap, highest);
        for _ in 0..GRANTS {
            let plan = numbers.below(highest.saturating_add(3));
            let answer = book.take(&Plan(plan));
            let agrees = plain.take(plan)? == answer && plain.agrees(&book);
            self.plans.count(answer, agrees);
        }
        Ok(())
    }
}

fn run(rt: &HostRuntime) -> anyhow::Result<()> {
    let mut trials = Trials {
        heap: rt.alloc(),
        numbers: Numbers::new(20_211),
        grants: Tally::default(),
        plans: Tally::default(),
    };
    for _ in 0..BOARDS {
        trials.try_board()?;
        trials.try_book()?;
    }
    println!(rt; "grants: {}", trials.grants)?;
    println!(rt; "plans: {}", trials.plans)?;
    Ok(())
}

fn main(rt: HostRuntime) -> anyhow::Result<()> {
    run(&rt)
}
