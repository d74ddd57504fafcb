//! What the controllers agree on, and what is done with it: kinds of values and duties, known by their meanings alone.

#![tactic(auto)]

mod duties;
mod laws;
mod outcomes;
mod refusals;
mod values;

pub use duties::Duty;
pub use laws::alike_stays;
pub use outcomes::Outcome;
pub use refusals::DutyRefusal;
pub use values::Same;
