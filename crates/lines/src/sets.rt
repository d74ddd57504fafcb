//! The controllers of a set.
ghost use Rattle.std.specs.Prelude.{◌≡◌};
ghost use Rattle.fields.specs.Reading.{Reads};
ghost use Rattle.lines.specs.Forms.{Read};
ghost use Rattle.lines.specs.Lines.{NumberFrom, SetForm, with_controller};

use crate::numbered::Numbered;
use fields::{FieldFault, Fields, number};
use structure::Group;

/// The number that a field says, if it is one and not below another.
fn number_from(low: u32, field: &[u8]) -> Option<u32>
    ensures { Reads (NumberFrom low) field.now result }
{
    number(field).filter(|n| low <= *n)
}

/// The group with one more controller, above all of its own; there is none with a controller from 16 on.
fn with(group: Option<Group>, controller: u32) -> Option<Group>
    ensures { result ≡ with_controller group controller }
{
    let group = group?;
    (controller < 16).then(|| group | (1 << controller))
}

/// After `set`: rising controllers. Their group, or none where one is 16 or above, which no yard has.
pub fn read_set(rest: Fields<'_>) -> Result<Option<Group>, FieldFault>
    ensures { Read SetForm rest.entry result }
{
    let mut group = Some(0);
    let mut low = 0;
    for (at, field) in Numbered::after_first(rest) {
        let controller = number_from(low, field).ok_or(FieldFault { field: at })?;
        group = with(group, controller);
        low = controller + 1;
    }
    Ok(group)
}
