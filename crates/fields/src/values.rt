//! Values, as a field says them.
ghost use Rattle.std.specs.Prelude.{ℕ, ◌<◌, List, length, codes};
ghost use Rattle.fields.specs.Numbers.{Number, numeral};
ghost use Rattle.fields.specs.Reading.{Reads, SaysOne};
ghost use Rattle.fields.specs.Values.{PlanText, GrantText, grant_text};
ghost use Rattle.fields.specs.Numerals.{one_number};
ghost use Rattle.fields.specs.Readings.{some_number, some_plan, some_grant, one_plan, one_grant, no_dash_number, no_dash_plan, no_dash_grant, zero_number, zero_plan, zero_grant};
ghost use Rattle.depot.specs.declared.values.Grant.{Grant};

use crate::cuts::cut;
use crate::numbers::number;
use depot::{Grant, Plan};

/// A kind of value that a field can say. No field says two, an empty one says none, and so does `-`, which stands for nothing; some field says
/// one.
pub trait Value: Copy {
    ghost says: { List ℕ → Self → Type 0 };

    /// The value that a field says, if it says one.
    fn read(field: &[u8]) -> Option<Self>
        ensures { Reads says field.now result };

    ghost some: { (f : List ℕ) (v : Self) → says f v → 0 < length f };

    ghost one: { SaysOne says };

    ghost dash: { (v : Self) → says (codes "-") v → ⊥ };

    ghost any: { (f : List ℕ) × (v : Self) × says f v };
}

impl Value for u32 {
    ghost says = { Number };

    ghost some = { some_number };

    ghost one = { one_number };

    ghost dash = { no_dash_number };

    ghost any = { (numeral 0, 0, zero_number) };

    fn read(field: &[u8]) -> Option<u32> {
        number(field)
    }
}

impl Value for Plan {
    ghost says = { PlanText };

    ghost some = { some_plan };

    ghost one = { one_plan };

    ghost dash = { no_dash_plan };

    ghost any = { (numeral 0, record { 0 = 0 }, zero_plan) };

    fn read(field: &[u8]) -> Option<Plan> {
        number(field).map(Plan)
    }
}

impl Value for Grant {
    ghost says = { GrantText };

    ghost some = { some_grant };

    ghost one = { one_grant };

    ghost dash = { no_dash_grant };

    ghost any = { (grant_text (record { bay = 0; amps = 0 }), record { bay = 0; amps = 0 }, zero_grant) };

    fn read(field: &[u8]) -> Option<Grant> {
        let (bay, amps) = cut(field, b'/');
        let amps = amps?;
        Some(Grant {
            bay: number(bay)?,
            amps: number(amps)?,
        })
    }
}
