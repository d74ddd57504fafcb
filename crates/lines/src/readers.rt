//! Lines with a fixed number of fields.
ghost use Rattle.lines.specs.Forms.{Read};
ghost use Rattle.lines.specs.Lines.{ControllersForm, SealForm, PlansForm, BoardForm, OfferForm};

use crate::numbered::Numbered;
use depot::{Grant, Plan};
use fields::{FieldFault, Fields, Value};

/// After `controllers`: how many there are.
pub fn read_controllers(rest: Fields<'_>) -> Result<u32, FieldFault>
    ensures { Read ControllersForm rest.entry result }
{
    read_offer::<u32>(rest)
}

/// After `seal`: nothing.
pub fn read_seal(rest: Fields<'_>) -> Result<(), FieldFault>
    ensures { Read SealForm rest.entry result }
{
    Numbered::after_first(rest).end()
}

/// After `plans`: the highest plan and the first proposal.
pub fn read_plans(rest: Fields<'_>) -> Result<(u32, Plan), FieldFault>
    ensures { Read PlansForm rest.entry result }
{
    let mut fields = Numbered::after_first(rest);
    let highest = fields.value::<u32>()?;
    let first = fields.value::<Plan>()?;
    fields.end()?;
    Ok((highest, first))
}

/// After `board`: how many bays, the feed, and the first proposal.
pub fn read_board(rest: Fields<'_>) -> Result<(u32, u32, Grant), FieldFault>
    ensures { Read BoardForm rest.entry result }
{
    let mut fields = Numbered::after_first(rest);
    let bays = fields.value::<u32>()?;
    let feed = fields.value::<u32>()?;
    let first = fields.value::<Grant>()?;
    fields.end()?;
    Ok((bays, feed, first))
}

/// After `offer`: a value.
pub fn read_offer<V: Value>(rest: Fields<'_>) -> Result<V, FieldFault>
    ensures { Read (OfferForm V.says) rest.entry result }
{
    let mut fields = Numbered::after_first(rest);
    let value = fields.value::<V>()?;
    fields.end()?;
    Ok(value)
}
