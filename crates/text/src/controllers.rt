//! The lines that open a controller and drive it.
ghost use Rattle.std.specs.Prelude.{Ok};
ghost use Rattle.text.specs.Driving.{Opened, OpensPlans, OpensBoard, OffersLine, HearsLine, OfferRead, RowRead};

use crate::driven::Driven;
use crate::yards::{Running, Yard};
use answers::{Fault, Reply};
use depot::{Board, PlanBook};
use engine::{Controller, Heard};
use fields::Fields;
use lines::{read_board, read_offer, read_plans, read_words};
use survivor::Table;

/// Offers a controller a value.
fn offer<D: Driven>(controller: &mut Controller<Table, D>, value: D::Value) -> Result<Reply, Fault>
    ensures { OfferRead D.Duty D.Value.Same D.Driven.agreed D.Driven.running (Ok value) controller.old result controller.new }
{
    controller.offer(value)?;
    Ok(Reply::Done)
}

/// Has a controller hear words.
fn hear<D: Driven>(
    controller: &mut Controller<Table, D>,
    words: &[Option<D::Value>],
) -> Result<Reply, Fault>
    ensures { RowRead D.Duty D.Value.Same D.Driven.agreed D.Driven.running (Ok words.now) controller.old result controller.new }
{
    match controller.hear(words)? {
        Heard::Round(due) => Ok(Reply::Round(due)),
        Heard::Closed(value, outcome) => Ok(Reply::Closed(D::agreed(value), outcome)),
    }
}

// `open_plans` and `open_board` read other settings, and `offer` and `hear` other fields for other calls: what they share is above, and
// in `open`.

impl Yard {
    /// Opens a controller with this duty on the table, in place of any that stood.
    fn open<D: Driven>(&mut self, table: Table, duty: D, first: D::Value) -> Result<Reply, Fault>
        ensures { Opened D.Duty D.Value.Same D.Driven.agreed D.Driven.running table duty first self.old result self.new }
    {
        // by arms, since one goes on and the other only tells
        match Controller::open(table, duty, first) {
            Ok(controller) => {
                self.running = Some(D::running(controller));
                Ok(Reply::Done)
            }
            Err(unopened) => Err(Fault::Duty(unopened.refusal)),
        }
    }

    /// `plans`: opens a controller with a plan book on the sealed table.
    pub(crate) fn open_plans(&mut self, rest: Fields<'_>) -> Result<Reply, Fault>
        ensures { OpensPlans self.old rest.entry result self.new }
    {
        let table = self.table.ok_or(Fault::Absent)?;
        let (highest, first) = read_plans(rest)?;
        let book = PlanBook::new(highest)?;
        self.open(table, book, first)
    }

    /// `board`: opens a controller with a board on the sealed table.
    pub(crate) fn open_board(&mut self, rest: Fields<'_>) -> Result<Reply, Fault>
        ensures { OpensBoard self.old rest.entry result self.new }
    {
        let table = self.table.ok_or(Fault::Absent)?;
        let (bays, feed, first) = read_board(rest)?;
        let board = Board::new(bays, feed)?;
        self.open(table, board, first)
    }

    /// `offer`: offers a value to the controller that stands.
    pub(crate) fn offer(&mut self, rest: Fields<'_>) -> Result<Reply, Fault>
        ensures { OffersLine self.old rest.entry result self.new }
    {
        match &mut self.running {
            Some(Running::Plans(controller)) => offer(controller, read_offer(rest)?),
            Some(Running::Board(controller)) => offer(controller, read_offer(rest)?),
            None => Err(Fault::Absent),
        }
    }

    /// `hear`: has the controller that stands hear a row.
    pub(crate) fn hear(&mut self, rest: Fields<'_>) -> Result<Reply, Fault>
        ensures { HearsLine self.old rest.entry result self.new }
    {
        match &mut self.running {
            Some(Running::Plans(controller)) => hear(controller, read_words(rest)?.as_slice()),
            Some(Running::Board(controller)) => hear(controller, read_words(rest)?.as_slice()),
            None => Err(Fault::Absent),
        }
    }
}
