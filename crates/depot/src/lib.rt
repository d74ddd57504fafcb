//! The duties of a bus depot: the board, which grants amps to the charging bays, and the plan book.

#![tactic(auto)]

mod bays;
mod board_duty;
mod boards;
mod books;
mod plan_duty;
mod refusals;
mod values;

pub use bays::Bay;
pub use boards::Board;
pub use books::PlanBook;
pub use refusals::SettingsRefusal;
pub use values::{Grant, Plan};
