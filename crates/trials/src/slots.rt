//! Whole slots on random rows over random sealed tables, heard by both implementations.

use crate::naive::Naive;
use crate::plain_rounds::{Answer, Plain, Word};
use crate::tries::{Trials, more};
use depot::{Plan, PlanBook};
use duty::Duty;
use engine::{Controller, RowRefusal};
use std::alloc::AllocError;
use survivor::{Draft, Table};

/// What was tried.
#[derive(Default, Drop)]
struct Counts {
    yards: u32,
    // of them, with more than one lead
    several: u32,
    rows: u32,
    slots: u32,
    offers: u32,
    refused: u32,
}

impl Counts {
    /// Counts what a row was answered.
    fn count(&mut self, answer: Result<Answer, RowRefusal>) {
        match answer {
            Ok(Answer::Round(_)) => more(&mut self.rows),
            Ok(Answer::Closed(_, _)) => {
                more(&mut self.rows);
                more(&mut self.slots);
            }
            Err(RowRefusal::WrongLength) => more(&mut self.refused),
        }
    }
}

/// One controller, in both implementations.
#[derive(Drop)]
struct Pair {
    ours: Controller<Table, PlanBook>,
    plain: Plain,
}

impl Trials<Counts> {
    /// A plan up to two past the highest, and so at times one that does not fit.
    fn any_plan(&mut self, highest: u32) -> Plan {
        Plan(self.dice.below(highest.saturating_add(3)))
    }

    /// A row in which many say the same, now and then of a wrong length.
    fn random_row(&mut self, size: u32, highest: u32) -> Result<Vec<Word>, AllocError> {
        let mut words = Vec::new(self.heap);
        let common = self.any_plan(highest);
        let share = self.dice.below(9);
        let length = if self.dice.below(50) == 0 {
            self.dice.below(20)
        } else {
            size
        };
        for _ in 0..length {
            let word = if self.dice.below(8) < share {
                Some(common)
            } else if self.dice.below(4) == 0 {
                None
            } else {
                Some(self.any_plan(highest))
            };
            words.push(word)?;
        }
        Ok(words)
    }

    /// Both hear a hundred rows, slot after slot, with offers in between.
    fn run(&mut self, pair: &mut Pair, size: u32) -> Result<(), AllocError> {
        let Pair { ours, plain } = pair;
        let Plan(highest) = ours.duty().highest();
        for _ in 0..100 {
            self.expect(plain.speak() == ours.speak());
            let row = self.random_row(size, highest)?;
            let answer = ours.hear(row.as_slice()).map(Answer::from);
            self.counts.count(answer);
            self.expect(plain.hear(row.as_slice()) == answer);
            self.expect(plain.in_force() == ours.duty().in_force());
            if self.dice.below(4) == 0 {
                let plan = self.any_plan(highest);
                more(&mut self.counts.offers);
                self.expect(plain.offer(plan) == ours.offer(plan));
            }
        }
        Ok(())
    }

    /// Opens both on the same sets; nothing where one of them, or both, cannot be opened.
    fn open(
        &mut self,
        table: Table,
        naive: Naive,
        size: usize,
        highest: u32,
        first: Plan,
    ) -> Option<Pair> {
        let book = PlanBook::new(highest).ok()?;
        let plain = Plain::open(naive, size, highest, first);
        let ours = Controller::open(table, book, first).ok();
        self.expect(plain.is_some() == ours.is_some());
        Some(Pair {
            ours: ours?,
            plain: plain?,
        })
    }

    /// One yard of `n` with up to `most` sets, where they can be sealed.
    fn trial(&mut self, n: u32, most: u32) -> anyhow::Result<()> {
        let mut draft = Draft::new(n)?;
        let mut naive = Naive::new(self.heap, n);
        let share = self.dice.below(4).saturating_add(5);
        let wide = self.dice.below(2) == 0;
        for _ in 0..self.dice.below(most).saturating_add(1) {
            let set = if wide {
                self.dice.most(n)
            } else {
                self.dice.group(n, share)
            };
            let _ = draft.add(set);
            let _ = naive.add(set)?;
        }
        let mut table = Table::new();
        if draft.seal(&mut table).is_err() {
            return Ok(());
        }
        let Plan(highest) = self.any_plan(6);
        let first = self.any_plan(highest);
        if let Some(mut pair) = self.open(table, naive, n as usize, highest, first) {
            more(&mut self.counts.yards);
            if table.leads().len() > 1 {
                more(&mut self.counts.several);
            }
            self.run(&mut pair, n)?;
        }
        Ok(())
    }
}

pub fn compare(rt: &HostRuntime) -> anyhow::Result<()> {
    let mut trials: Trials<Counts> = Trials::new(rt.alloc(), 7_102_026);
    for _ in 0..60 {
        for n in 1..17 {
            trials.trial(n, 8)?;
            trials.trial(n, 60)?;
        }
    }
    let Trials { counts, differ, .. } = &trials;
    println!(rt;
        "yards {}, with several leads {}: rows heard {}, refused {}",
        counts.yards, counts.several, counts.rows, counts.refused
    )?;
    println!(rt; "slots closed {}; offers {}", counts.slots, counts.offers)?;
    println!(rt; "words, answers and books that differ: {differ}")?;
    Ok(())
}
