ghost use Rattle.std.specs.Prelude.{◌≡◌, ℕ, ◌^◌, ◌<◌, length, nat_le};
ghost use Rattle.survivor.specs.Drafts.{size_of, sets_of, making, adding, misplaced, comparable, first_comparable, MadeBecause, AddedBecause, AddedTo};
ghost use Rattle.survivor.specs.Refusals.{said};
ghost use Rattle.cores.specs.Sharing.{Inside};

use crate::refusals::DraftRefusal;
use crate::tables::Draft;
use structure::{Group, contains, is_yard_size};

/// Whether one of two sets contains or equals the other.
fn comparable(a: Group, b: Group) -> bool
    ensures { (n : ℕ) → a < 2 ^ n → b < 2 ^ n → result ≡ comparable n a b }
{
    contains(b, a) || contains(a, b)
}

/// The lowest place, from 1, of a set that contains, equals or lies within this one.
fn first_comparable(sets: &[Group], set: Group) -> Option<usize>
    ensures { (n : ℕ) → Inside n sets.now → set < 2 ^ n → result ≡ first_comparable n 1 sets.now set }
{
    sets.iter()
        .position(|old| comparable(*old, set))
        .map(|i| i + 1)
}

impl Draft {
    /// A draft without a set, for a yard of `n` controllers.
    ///
    /// Refused with 1 where `n` is 0 or above 16.
    pub fn new(n: u32) -> Result<Draft, DraftRefusal>
        ensures answer { said result ≡ making n }
        ensures reason { MadeBecause n result }
    {
        if !is_yard_size(n) {
            return Err(DraftRefusal::YardSize);
        }
        Ok(Draft {
            size: n as u8,
            count: 0,
            sets: [0; 64],
        })
    }

    /// How many controllers the yard has.
    pub fn size(&self) -> u8
        ensures { result ≡ size_of self.now }
    {
        self.size
    }

    /// The sets, in the order of their places.
    pub fn sets(&self) -> &[Group]
        ensures { result.now ≡ sets_of self.now }
    {
        &self.sets[0..self.count]
    }

    /// Whether a set is empty or names a controller outside the yard.
    fn misplaced(&self, set: Group) -> bool
        ensures { result ≡ misplaced (size_of self.now) set }
    {
        set == 0 || u32::from(set) >> self.size != 0
    }

    /// Whether there is no room for another set.
    fn is_full(&self) -> bool
        ensures { result ≡ nat_le 64 (length (sets_of self.now)) }
    {
        self.count >= 64
    }

    /// Takes a set into the draft, at the next place.
    ///
    /// Refused, in this order: 2, the set is empty or names a controller outside the yard; 11, the draft has 64 sets;
    /// 12, the set contains, equals or lies within one of the draft. A refused set leaves the draft as it was.
    pub fn add(&mut self, set: Group) -> Result<(), DraftRefusal>
        ensures answer { said result ≡ adding (size_of self.old) (sets_of self.old) set }
        ensures reason { AddedBecause self.old set result }
        ensures after { AddedTo self.old set result self.new }
    {
        if self.misplaced(set) {
            return Err(DraftRefusal::EmptyOrOutside);
        }
        if self.is_full() {
            return Err(DraftRefusal::Full);
        }
        if let Some(place) = first_comparable(self.sets(), set) {
            return Err(DraftRefusal::Comparable(place));
        }
        self.sets[self.count] = set;
        self.count += 1;
        Ok(())
    }
}
