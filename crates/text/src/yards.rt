//! What a text has made so far.
use depot::{Board, PlanBook};
use engine::Controller;
use survivor::{Draft, Table};

/// A controller on a sealed table, with either duty.
#[derive(Drop)]
pub(crate) enum Running {
    Plans(Controller<Table, PlanBook>),
    Board(Controller<Table, Board>),
}

/// What the lines of a text have made so far: the draft, the sealed table and the controller, as far as there are any.
#[derive(Drop)]
pub struct Yard {
    // how many lines were answered
    pub(crate) lines: u32,
    pub(crate) draft: Option<Draft>,
    pub(crate) table: Option<Table>,
    pub(crate) running: Option<Running>,
}
