//! Duties.
ghost use Rattle.std.specs.Prelude.{◌≡◌, Bool};
ghost use Rattle.duty.specs.Codes.{Code};
ghost use Rattle.duty.specs.declared.outcomes.Outcome.{Outcome};
ghost use Rattle.duty.specs.Taking.{Takes};

use crate::outcomes::Outcome;
use crate::refusals::DutyRefusal;
use crate::values::Same;

/// What is done with agreed values of one kind.
///
/// A duty means its settings, which never change, and its content. Whether a value fits depends on the settings and
/// the value's code alone; `step` gives the content and the outcome that taking a fitting value leads to.
pub trait Duty {
    type Value: Same + Drop;

    ghost Settings: { Type 0 };

    ghost Content: { Type 0 };

    ghost settings: { Self → Settings };

    ghost content: { Self → Content };

    ghost fitting: { Settings → Code → Bool };

    ghost step: { Settings → Content → Code → Content × Outcome };

    /// Whether the value fits. Asking alters nothing and is never refused.
    fn fits(&self, value: &Self::Value) -> bool
        ensures { result ≡ fitting (settings self.now) (Self.Value.Same.code value.now) };

    /// Takes the value: a fitting one as `step` has it; an unfit one is refused with 4, and the duty stays as it was.
    fn take(&mut self, value: &Self::Value) -> Result<Outcome, DutyRefusal>
        ensures { Takes settings content fitting step self.old (Self.Value.Same.code value.now) result self.new };
}
