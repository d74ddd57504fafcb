//! The phases of a slot.
ghost use Rattle.std.specs.Prelude.{◌≡◌, ◌+◌, ◌<◌, length, if◌then◌else◌, Some, None, nat_lt, slice_index};
ghost use Rattle.std.specs.Option.{option_map};

use structure::Structure;

/// A phase of a slot, by its number from 0: the place of its lead in the structure's list.
#[derive(Clone, Copy)]
pub struct Phase {
    pub(crate) number: u8,
    ghost few: { number < 16 },
}

impl Phase {
    /// The phase that a slot begins with.
    pub fn first() -> Phase
        ensures { result.number ≡ 0 }
    {
        Phase { number: 0 }
    }

    /// The number of the phase.
    pub fn number(self) -> u8
        ensures value { result ≡ self.number }
        ensures few { result < 16 }
    {
        self.number
    }

    /// The phase after this one, or nothing where the structure has no lead for it.
    pub(crate) fn next<S: Structure>(self, structure: &S) -> Option<Phase>
        ensures { option_map (λ phase. phase.number) result ≡ (if nat_lt (self.number + 1) (length (S.Structure.meaning structure.now).leads) then Some (self.number + 1) else None) }
    {
        let number = self.number + 1;
        structure.lead(number as usize)?;
        Some(Phase { number })
    }

    /// The controller that leads the phase.
    pub(crate) fn lead<S: Structure>(self, structure: &S) -> u8
        ensures { result ≡ slice_index (S.Structure.meaning structure.now).leads self.number }
    {
        structure.lead(self.number as usize).unwrap_or(0)
    }
}
