//! Why the settings of a duty are refused.
ghost use Rattle.std.specs.Prelude.{◌≡◌};
ghost use Rattle.depot.specs.Refusals.{number};

use thiserror::Error;

/// Why the settings of a duty are refused: an error of this layer alone, though it has one case.
#[derive(Clone, Copy, PartialEq, Eq, Debug, Error)]
pub enum SettingsRefusal {
    /// 6: a setting is out of its range.
    #[error("a setting is out of its range")]
    OutOfRange,
}

impl SettingsRefusal {
    /// The refusal's number.
    pub fn number(self) -> u8
        ensures { result ≡ number self }
    {
        match self {
            SettingsRefusal::OutOfRange => 6,
        }
    }
}
