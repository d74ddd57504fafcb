//! The fields after the first, each with its number.
ghost use Rattle.std.specs.Prelude.{◌≡◌, length};
ghost use Rattle.std.specs.Iterator.{at_most};
ghost use Rattle.lines.specs.Forms.{Ends, GivesNumbered, NextSays};

use fields::{FieldFault, Fields, Value};

/// The fields that are left of a line, and the number of the next one, as far as 32 bits go.
#[derive(Drop)]
pub(crate) struct Numbered<'a> {
    fields: Fields<'a>,
    at: u32,
}

impl<'a> Numbered<'a> {
    /// The fields after the first, from number 2.
    pub(crate) fn after_first(fields: Fields<'a>) -> Numbered<'a>
        ensures { (result.fields ≡ fields.entry) × (result.at ≡ 2) }
    {
        Numbered { fields, at: 2 }
    }

    /// The value that the next field says. Where it says none, or is missing, it is at fault.
    pub(crate) fn value<V: Value>(&mut self) -> Result<V, FieldFault>
        ensures { NextSays V.says self.old result self.new }
    {
        let missing = FieldFault { field: self.at };
        let (number, field) = self.next().ok_or(missing)?;
        V::read(field).ok_or(FieldFault { field: number })
    }

    /// No field is left; else the next one is surplus.
    pub(crate) fn end(mut self) -> Result<(), FieldFault>
        ensures { Ends self.entry.fields self.entry.at result }
    {
        match self.next() {
            None => Ok(()),
            Some((number, _)) => Err(FieldFault { field: number }),
        }
    }
}

impl<'a> Iterator for Numbered<'a> {
    type Item = (u32, &'a [u8]);

    ghost next_gives = { GivesNumbered };

    ghost remaining = { λ s. at_most (length s.fields) };

    fn next(&mut self) -> Option<(u32, &'a [u8])> {
        let field = self.fields.next()?;
        let number = self.at;
        self.at = number.saturating_add(1);
        Some((number, field))
    }
}
