//! The fields of a line: how tabs part it, and the numbers, plans and grants that a field says.

#![tactic(auto)]

mod cuts;
mod faults;
mod fields;
mod numbers;
mod values;

pub use cuts::next_field;
pub use faults::FieldFault;
pub use fields::Fields;
pub use numbers::number;
pub use values::Value;
