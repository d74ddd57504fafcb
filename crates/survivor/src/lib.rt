//! Drafts of survivor sets, and the sealed tables that come of them.

#![tactic(auto)]

mod drafts;
mod refusals;
mod seals;
mod tables;

pub use refusals::DraftRefusal;
pub use tables::{Draft, Table};
