//! What a line that was not refused led to.
use depot::{Grant, Plan};
use duty::Outcome;
use survivor::Table;

/// What an agreed value is, for either duty.
#[derive(Clone, Copy, PartialEq, Eq, Debug)]
pub enum Agreed {
    Plan(Plan),
    Grant(Grant),
}

/// What a line that was not refused led to.
#[derive(Clone, Copy)]
pub enum Reply {
    /// It was done.
    Done,
    /// The draft was sealed into this table, whose leads are told.
    Sealed(Table),
    /// This round is due now.
    Round(u8),
    /// The slot closed with this value, and the duty took it or set it aside.
    Closed(Agreed, Outcome),
}
