ghost use Rattle.std.specs.Prelude.{◌≡◌};
ghost use Rattle.threshold.specs.Refusals.{number};

use thiserror::Error;

/// Why a call was refused.
#[derive(Clone, Copy, PartialEq, Eq, Debug, Error)]
pub enum ThresholdRefusal {
    /// 1: a yard has 1 to 16 controllers.
    #[error("a yard has 1 to 16 controllers")]
    YardSize,
    /// 5: three times the fault number is the number of controllers or more.
    #[error("three times the fault number is the number of controllers or more")]
    TooManyFaults,
}

impl ThresholdRefusal {
    /// The number by which the refusal is known.
    pub fn number(self) -> u8
        ensures { result ≡ number self }
    {
        match self {
            ThresholdRefusal::YardSize => 1,
            ThresholdRefusal::TooManyFaults => 5,
        }
    }
}
