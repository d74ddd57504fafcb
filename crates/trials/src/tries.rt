//! What the trials of drafts and of slots have in common.

use crate::dice::Dice;
use std::alloc::Global;

/// What trials run on, what they counted, and how often the two implementations did not answer alike.
#[derive(Drop)]
pub struct Trials<C> {
    pub heap: Global,
    pub dice: Dice,
    pub counts: C,
    pub differ: u32,
}

impl<C: Default> Trials<C> {
    pub fn new(heap: Global, seed: u64) -> Trials<C> {
        Trials {
            heap,
            dice: Dice::new(seed),
            counts: C::default(),
            differ: 0,
        }
    }
}

impl<C> Trials<C> {
    pub fn expect(&mut self, alike: bool) {
        if !alike {
            more(&mut self.differ);
        }
    }
}

/// Counts one more.
pub fn more(count: &mut u32) {
    *count = count.saturating_add(1);
}
