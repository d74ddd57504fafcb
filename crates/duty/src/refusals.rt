//! Why a duty refuses a value.
ghost use Rattle.std.specs.Prelude.{◌≡◌};
ghost use Rattle.duty.specs.Refusals.{number};

use thiserror::Error;

/// Why a duty refuses a value: an error of this layer alone, though it has one case.
#[derive(Clone, Copy, PartialEq, Eq, Debug, Error)]
pub enum DutyRefusal {
    /// 4: the value does not fit.
    #[error("the value does not fit")]
    Unfit,
}

impl DutyRefusal {
    /// The refusal's number.
    pub fn number(self) -> u8
        ensures { result ≡ number self }
    {
        match self {
            DutyRefusal::Unfit => 4,
        }
    }
}
