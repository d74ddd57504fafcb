//! How long a slot is.
ghost use Rattle.std.specs.Prelude.{◌≡◌, length};
ghost use Rattle.rounds.specs.Agreement.{SlotAgrees, RunsExist};
ghost use Rattle.rounds.specs.Slots.{rounds};

use structure::Structure;

/// How many rounds a slot has: three for each lead. Its contract also says what one slot promises, over every structure.
pub fn slot_rounds<S: Structure>(structure: &S) -> u8
    ensures value { result ≡ rounds (S.Structure.meaning structure.now) }
    ensures agrees { SlotAgrees (S.Structure.meaning structure.now) }
    ensures exist { RunsExist (S.Structure.meaning structure.now) }
{
    3 * leads(structure)
}

/// How many leads the structure has.
fn leads<S: Structure>(structure: &S) -> u8
    ensures { result ≡ length (S.Structure.meaning structure.now).leads }
{
    (0..structure.size())
        .take_while(|place| structure.lead(usize::from(*place)).is_some())
        .count() as u8
}
