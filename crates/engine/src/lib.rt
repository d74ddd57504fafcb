//! The engine: rows that are checked, the tally, the stages that rows use up, and the controllers. It knows structures, values and
//! duties by their meanings alone.
//!
//! A slot begins with `Poll::open`. Each stage speaks one word and hears one row, is used up by it and gives the next stage.
//! What a stage gives is `next` of the rounds' definitions, which know values by their codes alone.

#![tactic(auto)]

mod controllers;
mod controlling;
mod hearings;
mod phases;
mod refusals;
mod rows;
mod slots;
mod stages;
mod tallies;

pub use controllers::{Controller, Heard, Unopened};
pub use phases::Phase;
pub use refusals::RowRefusal;
pub use rows::Row;
pub use slots::slot_rounds;
pub use stages::{Closed, Confirm, Lead, Next, Poll};
pub use tallies::tally;
