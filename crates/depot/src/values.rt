//! The two kinds of values: plan numbers and grants.
ghost use Rattle.std.specs.Prelude.{◌∷◌, ◌++◌, decimal, Some};
ghost use Rattle.depot.specs.Values.{plan_code, grant_code};

use duty::Same;
use std::fmt;

/// The number of a plan. 0 stands for no plan: the depot's people say it so, and an `Option` beside it would say it twice.
#[derive(Clone, Copy, PartialEq, Eq, Debug)]
pub struct Plan(pub u32);

/// What a bay may draw: the bay, counted from 0, and its amps.
#[derive(Clone, Copy, PartialEq, Eq, Debug)]
pub struct Grant {
    pub bay: u32,
    pub amps: u32,
}

impl Same for Plan {
    ghost code = { plan_code };

    fn same(&self, other: &Plan) -> bool {
        self == other
    }
}

impl Same for Grant {
    ghost code = { grant_code };

    fn same(&self, other: &Grant) -> bool {
        self == other
    }
}

impl fmt::Display for Plan {
    ghost output = { λ p. Some (decimal p.0) };

    fn fmt<W: fmt::Write>(&self, f: &mut fmt::Formatter<W>) -> fmt::Result {
        write!(f, "{}", self.0)
    }
}

impl fmt::Display for Grant {
    // 47 is a slash
    ghost output = { λ g. Some (decimal g.bay ++ 47 ∷ decimal g.amps) };

    fn fmt<W: fmt::Write>(&self, f: &mut fmt::Formatter<W>) -> fmt::Result {
        write!(f, "{}/{}", self.bay, self.amps)
    }
}
