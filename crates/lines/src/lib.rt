//! The lines of the yard text: what the first field names, and what the fields after it say.
//!
//! A reader takes the fields that are left of a line and gives what they say, or the first field that is faulty, missing or surplus.

#![tactic(auto)]

mod numbered;
mod readers;
mod sets;
mod verbs;
mod word_rows;
mod words;

pub use readers::{read_board, read_controllers, read_offer, read_plans, read_seal};
pub use sets::read_set;
pub use verbs::{Verb, read_verb};
pub use word_rows::read_words;
pub use words::Words;
