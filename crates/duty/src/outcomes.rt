//! What became of a fitting value.
ghost use Rattle.std.specs.Prelude.{◌≡◌};
ghost use Rattle.duty.specs.Outcomes.{number};

/// What became of a fitting value.
#[derive(Clone, Copy, PartialEq, Eq, Debug)]
pub enum Outcome {
    /// The duty took it.
    Taken,
    /// The duty set it aside, for the reason that has this number: each duty has reasons of its own, which no enum here could list.
    Aside(u8),
}

impl Outcome {
    /// The number of the reason for which the value was set aside; a value that was taken has none.
    pub fn number(self) -> Option<u8>
        ensures { result ≡ number self }
    {
        match self {
            Outcome::Taken => None,
            Outcome::Aside(reason) => Some(reason),
        }
    }
}
