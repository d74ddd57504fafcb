//! The fields of a line, one after another.
ghost use Rattle.std.specs.Prelude.{◌≡◌, ℕ, List, length};
ghost use Rattle.std.specs.Iterator.{at_most};
ghost use Rattle.fields.specs.Fields.{GivesFirst, left};

use crate::cuts::next_field;
use std::marker::Model;

/// The fields that are left of a line, seen as the list of them.
#[derive(Drop)]
pub struct Fields<'a> {
    // what is left of the line, if a tab ended the field before it
    rest: Option<&'a [u8]>,
}

impl<'a> Model for Fields<'a> {
    ghost Value = { List (List ℕ) };

    ghost view = { λ f. left f.rest };
}

impl<'a> Fields<'a> {
    /// The bytes that are left of the line, if anything is.
    pub fn rest(&self) -> Option<&'a [u8]>
        ensures { left result ≡ self.now }
    {
        let Self { rest } = self;
        *rest
    }
}

impl<'a> From<Option<&'a [u8]>> for Fields<'a> {
    ghost from_gives = { λ rest f. f ≡ left rest };

    /// The fields of what is left of a line, if anything is.
    fn from(rest: Option<&'a [u8]>) -> Fields<'a> {
        Fields { rest }
    }
}

impl<'a> Iterator for Fields<'a> {
    type Item = &'a [u8];

    ghost next_gives = { GivesFirst };

    ghost remaining = { λ fs. at_most (length fs) };

    fn next(&mut self) -> Option<&'a [u8]> {
        let (field, after) = next_field(self.rest?);
        self.rest = after;
        Some(field)
    }
}
