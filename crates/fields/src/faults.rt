//! A field that is not in form.
use thiserror::Error;

/// The first field of a line that is faulty, missing or surplus, counted from 1.
#[derive(Clone, Copy, PartialEq, Eq, Debug, Error)]
#[error("field {field} is faulty, missing or surplus")]
pub struct FieldFault {
    pub field: u32,
}
