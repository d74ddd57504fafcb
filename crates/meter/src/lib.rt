//! A small duty, written out whole to show how one is added: docs/duties.md goes through it.

#![tactic(auto)]

ghost use Rattle.std.specs.Prelude.{[], ◌∷◌, ◌≡◌, ℕ};
ghost use Rattle.meter.specs.Readings.{fitting as reading_fits, step as reading_step};

use duty::{Duty, DutyRefusal, Outcome, Same};

/// A meter reading, in kWh.
#[derive(Clone, Copy, PartialEq, Eq, Debug)]
pub struct Reading(pub u32);

impl Same for Reading {
    ghost code = { λ r. r.0 ∷ [] };

    fn same(&self, other: &Reading) -> bool {
        self == other
    }
}

/// The latest reading of a meter that only counts up, to a limit.
#[derive(Drop)]
pub struct Meter {
    limit: u32,
    latest: u32,
}

impl Meter {
    /// A meter at 0.
    pub fn new(limit: u32) -> Meter
        ensures settings { result.limit ≡ limit }
        ensures content { result.latest ≡ 0 }
    {
        Meter { limit, latest: 0 }
    }

    /// The latest reading.
    pub fn latest(&self) -> Reading
        ensures { result.0 ≡ self.now.latest }
    {
        Reading(self.latest)
    }
}

impl Duty for Meter {
    type Value = Reading;

    ghost Settings = { ℕ };

    ghost Content = { ℕ };

    ghost settings = { λ m. m.limit };

    ghost content = { λ m. m.latest };

    ghost fitting = { reading_fits };

    ghost step = { reading_step };

    fn fits(&self, reading: &Reading) -> bool {
        reading.0 <= self.limit
    }

    fn take(&mut self, reading: &Reading) -> Result<Outcome, DutyRefusal> {
        if !self.fits(reading) {
            return Err(DutyRefusal::Unfit);
        }
        if reading.0 < self.latest {
            return Ok(Outcome::Aside(99));
        }
        self.latest = reading.0;
        Ok(Outcome::Taken)
    }
}
