//! The threshold structure: a yard in which at most `t` of `n` controllers are faulty, whichever they are.

#![tactic(auto)]

mod methods;
mod refusals;
mod thresholds;

pub use methods::greatest_faults;
pub use refusals::ThresholdRefusal;
pub use thresholds::Threshold;
