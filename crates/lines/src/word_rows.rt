//! The words that a line has a controller hear.
ghost use Rattle.fields.specs.Reading.{Reads};
ghost use Rattle.lines.specs.Forms.{Read};
ghost use Rattle.lines.specs.Lines.{SaysWord, HearForm};

use crate::numbered::Numbered;
use crate::words::Words;
use fields::{FieldFault, Fields, Value};

/// What a field says as a word: a value, or nothing where it is `-`.
fn word<V: Value>(field: &[u8]) -> Option<Option<V>>
    ensures { Reads (SaysWord V.says) field.now result }
{
    match field {
        [b'-'] => Some(None),
        _ => V::read(field).map(Some),
    }
}

/// After `hear`: words, any number of them.
pub fn read_words<V: Value>(rest: Fields<'_>) -> Result<Words<V>, FieldFault>
    ensures { Read (HearForm V.says) rest.entry result }
{
    let mut words = Words::none();
    for (at, field) in Numbered::after_first(rest) {
        let said = word(field).ok_or(FieldFault { field: at })?;
        words.push(said);
    }
    Ok(words)
}
