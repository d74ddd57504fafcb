//! Answers: what came of a line of the yard text, and the line that tells it.

#![tactic(auto)]

mod answers;
mod faults;
mod replies;
mod writes;

pub use answers::Answer;
pub use faults::{Fault, Refusal};
pub use replies::{Agreed, Reply};
