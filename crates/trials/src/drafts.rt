//! Drafts of random sets, drafted and sealed by both implementations.

use crate::naive::{Flags, Naive, Unsealed};
use crate::tries::{Trials, more};
use structure::Structure;
use survivor::{Draft, DraftRefusal, Table};

/// What was tried.
#[derive(Default, Drop)]
struct Counts {
    drafts: u32,
    offered: u32,
    taken: u32,
    sealed: u32,
    groups: u32,
    splits: u32,
}

/// Whether the table leads by exactly these controllers, in order.
fn leads_by(table: &Table, leads: &Flags) -> bool {
    let controllers = (0u8..)
        .zip(leads)
        .filter(|(_, leads)| **leads)
        .map(|(i, _)| i);
    (0..17).map_while(|place| table.lead(place)).eq(controllers)
}

impl Trials<Counts> {
    /// Seals both, and compares what came of it.
    fn seal(&mut self, draft: &Draft, naive: &Naive) {
        let mut table = Table::new();
        let answer = naive.seal();
        match draft.seal(&mut table) {
            Ok(()) => {
                more(&mut self.counts.sealed);
                self.expect(answer.is_ok_and(|leads| leads_by(&table, &leads)));
                for _ in 0..20 {
                    let share = self.dice.below(9);
                    let group = self.dice.group(16, share);
                    more(&mut self.counts.groups);
                    self.expect(table.enough(group) == naive.enough(group));
                }
            }
            Err(DraftRefusal::NoSet) => self.expect(answer == Err(Unsealed::NoSet)),
            Err(DraftRefusal::NoneShared(p, q, r)) => self.expect(
                answer == Err(Unsealed::NoneShared) && naive.none_shared(p, q, r),
            ),
            Err(_) => self.expect(false),
        }
    }

    /// One draft of up to `most` sets for a yard of `n`.
    fn trial(&mut self, n: u32, most: u32) -> anyhow::Result<()> {
        let mut draft = Draft::new(n)?;
        let mut naive = Naive::new(self.heap, n);
        let share = self.dice.below(9);
        for _ in 0..self.dice.below(most) {
            let set = self.dice.group(n, share);
            let answer = draft.add(set);
            if answer.is_ok() {
                more(&mut self.counts.taken);
            }
            more(&mut self.counts.offered);
            self.expect(naive.add(set)? == answer);
        }
        more(&mut self.counts.drafts);
        self.seal(&draft, &naive);
        if n <= 4 && !draft.sets().is_empty() {
            more(&mut self.counts.splits);
            let sealed = draft.seal(&mut Table::new()).is_ok();
            self.expect(naive.splits_keep_a_core(self.heap)? == sealed);
        }
        Ok(())
    }
}

pub fn compare(rt: &HostRuntime) -> anyhow::Result<()> {
    let mut trials: Trials<Counts> = Trials::new(rt.alloc(), 20_260_613);
    for _ in 0..100 {
        for n in 1..17 {
            trials.trial(n, 12)?;
            trials.trial(n, 120)?;
        }
    }
    let Trials { counts, differ, .. } = &trials;
    println!(rt;
        "drafts {}: sets offered {}, taken {}; sealed {}",
        counts.drafts, counts.offered, counts.taken, counts.sealed
    )?;
    println!(rt;
        "groups asked about {}; drafts held to the wording by splits {}",
        counts.groups, counts.splits
    )?;
    println!(rt; "answers that differ: {differ}")?;
    Ok(())
}
