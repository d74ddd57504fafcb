//! The duties that lines can drive a controller with.
ghost use Rattle.std.specs.Prelude.{◌≡◌};
ghost use Rattle.survivor.specs.declared.tables.Table.{Table};
ghost use Rattle.engine.specs.declared.controllers.Controller.{Controller};
ghost use Rattle.answers.specs.declared.replies.Agreed.{Agreed};
ghost use Rattle.answers.specs.declared.replies.Agreed.TheVariants as Agreeds;
ghost use Rattle.text.specs.declared.yards.Running.{Running};
ghost use Rattle.text.specs.declared.yards.Running.TheVariants as Runnings;

use crate::yards::Running;
use answers::Agreed;
use depot::{Board, Grant, Plan, PlanBook};
use duty::Duty;
use engine::Controller;
use survivor::Table;

/// A duty that lines can drive a controller with: how its values and its controllers are told from those of others.
pub(crate) trait Driven: Duty + Drop {
    ghost agreed: { Self.Value → Agreed };

    ghost running: { Controller Table Self Self.Value → Running };

    /// An agreed value.
    fn agreed(value: Self::Value) -> Agreed
        ensures { result ≡ agreed value };

    /// A controller that stands.
    fn running(controller: Controller<Table, Self>) -> Running
        ensures { result ≡ running controller };
}

impl Driven for PlanBook {
    ghost agreed = { Agreeds.Plan };

    ghost running = { Runnings.Plans };

    fn agreed(value: Plan) -> Agreed
        ensures { result ≡ Agreeds.Plan value }
    {
        Agreed::Plan(value)
    }

    fn running(controller: Controller<Table, PlanBook>) -> Running
        ensures { result ≡ Runnings.Plans controller }
    {
        Running::Plans(controller)
    }
}

impl Driven for Board {
    ghost agreed = { Agreeds.Grant };

    ghost running = { Runnings.Board };

    fn agreed(value: Grant) -> Agreed
        ensures { result ≡ Agreeds.Grant value }
    {
        Agreed::Grant(value)
    }

    fn running(controller: Controller<Table, Board>) -> Running
        ensures { result ≡ Runnings.Board controller }
    {
        Running::Board(controller)
    }
}
