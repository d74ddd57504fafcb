//! The plan book as a duty, and what it shows.
ghost use Rattle.std.specs.Prelude.{◌≡◌, ℕ};
ghost use Rattle.depot.specs.Plans.{fitting as plan_fits, step as plan_step};
ghost use Rattle.depot.specs.PlanCalls.{settings_of, content_of, Made};
ghost use Rattle.depot.specs.PlanLaws.{Lasting};

use crate::books::PlanBook;
use crate::refusals::SettingsRefusal;
use crate::values::Plan;
use duty::{Duty, DutyRefusal, Outcome};

impl PlanBook {
    /// A book of the plans from 1 to the highest, itself from 1 to 9,999, with none in force. Any other is refused with 6.
    pub fn new(highest: u32) -> Result<PlanBook, SettingsRefusal>
        ensures made { Made highest result }
        ensures lasting { Lasting result }
    {
        if highest == 0 || highest > 9_999 {
            return Err(SettingsRefusal::OutOfRange);
        }
        Ok(PlanBook {
            highest,
            in_force: 0,
        })
    }

    /// The highest plan.
    pub fn highest(&self) -> Plan
        ensures { result.0 ≡ settings_of self.now }
    {
        Plan(self.highest)
    }

    /// The plan in force; plan 0 where none is yet.
    pub fn in_force(&self) -> Plan
        ensures { result.0 ≡ content_of self.now }
    {
        Plan(self.in_force)
    }
}

impl Duty for PlanBook {
    type Value = Plan;

    ghost Settings = { ℕ };

    ghost Content = { ℕ };

    ghost settings = { settings_of };

    ghost content = { content_of };

    ghost fitting = { plan_fits };

    ghost step = { plan_step };

    fn fits(&self, plan: &Plan) -> bool {
        1 <= plan.0 && plan.0 <= self.highest
    }

    fn take(&mut self, plan: &Plan) -> Result<Outcome, DutyRefusal> {
        if !self.fits(plan) {
            return Err(DutyRefusal::Unfit);
        }
        self.in_force = plan.0;
        Ok(Outcome::Taken)
    }
}
