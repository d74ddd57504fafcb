//! A controller, and what it answers. `controlling` has its calls.

use crate::phases::Phase;
use duty::{Duty, DutyRefusal, Outcome};
use structure::Structure;

/// The stage at which a slot stands, with the values held. They lie here and not the stage itself, which a row uses up: a hearing copies
/// them out, runs the stage made of them and writes the new case back, so a refused row has nothing to put back.
#[derive(Clone, Copy)]
pub(crate) enum Held<V> {
    Poll { x: V },
    Confirm { x: V, y: Option<V> },
    Lead { z: V, sure: bool },
}

/// One controller of a yard: the stage at which its slot stands, what it runs on, and the proposal for the next slot.
#[derive(Drop)]
pub struct Controller<S: Structure, D: Duty> {
    pub(crate) structure: S,
    pub(crate) duty: D,
    pub(crate) phase: Phase,
    pub(crate) held: Held<D::Value>,
    pub(crate) pending: D::Value,
}

/// What an accepted row led to.
#[derive(Clone, Copy, Drop)]
pub enum Heard<V> {
    /// This round is due now, from 1.
    Round(u8),
    /// The slot closed with this value, and the duty took it or set it aside.
    Closed(V, Outcome),
}

/// A controller that was not opened: what it was to run on, as it was, and why.
#[derive(Drop)]
pub struct Unopened<S, D> {
    pub structure: S,
    pub duty: D,
    pub refusal: DutyRefusal,
}
