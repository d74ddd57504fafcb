//! The first field of a line.
ghost use Rattle.lines.specs.Verbs.{NamesVerb, ReadsVerb};

use fields::{FieldFault, Fields, next_field};

/// What the first field of a line names.
#[derive(Clone, Copy, PartialEq, Eq, Debug)]
pub enum Verb {
    Controllers,
    Set,
    Seal,
    Plans,
    Board,
    Offer,
    Hear,
}

/// What a first field names. Where it names nothing, field 1 is at fault.
impl TryFrom<&[u8]> for Verb {
    type Error = FieldFault;

    ghost try_from_gives = { NamesVerb };

    fn try_from(field: &[u8]) -> Result<Verb, FieldFault> {
        match field {
            b"hear" => Ok(Verb::Hear),
            b"offer" => Ok(Verb::Offer),
            b"set" => Ok(Verb::Set),
            b"seal" => Ok(Verb::Seal),
            b"controllers" => Ok(Verb::Controllers),
            b"plans" => Ok(Verb::Plans),
            b"board" => Ok(Verb::Board),
            _ => Err(FieldFault { field: 1 }),
        }
    }
}

/// What the first field of a line names, and the fields after it. Where it names nothing, field 1 is at fault.
pub fn read_verb(line: &[u8]) -> Result<(Verb, Fields<'_>), FieldFault>
    ensures { ReadsVerb line.now result }
{
    let (first, rest) = next_field(line);
    let verb = Verb::try_from(first)?;
    Ok((verb, Fields::from(rest)))
}
