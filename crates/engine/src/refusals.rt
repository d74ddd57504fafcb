//! Why a row is refused.
ghost use Rattle.std.specs.Prelude.{◌≡◌};
ghost use Rattle.engine.specs.Refusals.{number};

use thiserror::Error;

/// Why a row was refused: an error of this layer alone, though it has one case.
#[derive(Clone, Copy, PartialEq, Eq, Debug, Error)]
pub enum RowRefusal {
    /// 3: the row has not one word for each controller.
    #[error("the row has not one word for each controller")]
    WrongLength,
}

impl RowRefusal {
    /// The number by which the refusal is known.
    pub fn number(self) -> u8
        ensures { result ≡ number self }
    {
        match self {
            RowRefusal::WrongLength => 3,
        }
    }
}
