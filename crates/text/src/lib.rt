//! The yard that a text drives: one line after another, each with its answer.

#![tactic(auto)]

mod answering;
mod controllers;
mod drafts;
mod driven;
mod yards;

pub use yards::Yard;
