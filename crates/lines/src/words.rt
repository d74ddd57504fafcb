//! The words of a row.
ghost use Rattle.std.specs.Prelude.{◌≡◌, List, Option, [], ◌∷◌, ◌++◌, take};

use arrayvec::ArrayVec;
use std::marker::Model;

/// The first 17 words of a row, seen as the list of them. A yard has 16 controllers at most, so a row of 17 is too long, and so is a
/// longer one. (The program `yard` keeps bytes in the same way; a row is given away whole, and they are let go again.)
#[derive(Drop)]
pub struct Words<V> {
    items: ArrayVec<Option<V>, 17>,
}

impl<V> Model for Words<V> {
    ghost Value = { List (Option V) };

    ghost view = { λ w. w.items.items };
}

impl<V: Copy> Words<V> {
    /// No words.
    pub(crate) fn none() -> Words<V>
        ensures { result ≡ [] }
    {
        Words {
            items: ArrayVec::new(),
        }
    }

    /// The words, in their order.
    pub fn as_slice(&self) -> &[Option<V>]
        ensures { result.now ≡ self.now }
    {
        self.items.as_slice()
    }

    /// Adds a word, if it is among the first 17.
    pub(crate) fn push(&mut self, word: Option<V>)
        ensures { self.new ≡ take 17 (self.old ++ word ∷ []) }
    {
        let _ = self.items.try_push(word);
    }
}
