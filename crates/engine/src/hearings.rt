//! Checking a row, and what is heard in it.
ghost use Rattle.std.specs.Prelude.{◌≡◌, Bool};
ghost use Rattle.duty.specs.Codes.{Code};
ghost use Rattle.rounds.specs.Rows.{word_at, heard_word};
ghost use Rattle.rounds.specs.Rounds.{has_enough, weighty, first, polled};
ghost use Rattle.engine.specs.Words.{word_code, codes};
ghost use Rattle.engine.specs.Rows.{meaning_of, fits_in, heard_row, Checks};
ghost use Rattle.engine.specs.Tests.{Tests};

use crate::refusals::RowRefusal;
use crate::rows::Row;
use crate::tallies::tally;
use duty::Duty;
use structure::{Structure, everyone};

impl<'a, 'w, S: Structure, D: Duty> Row<'a, 'w, S, D> {
    /// Checks that there is one word for each controller. No stage moves.
    ///
    /// Refused with 3 where there is not.
    pub fn check(
        structure: &'a S,
        duty: &'a D,
        words: &'w [Option<D::Value>],
    ) -> Result<Row<'a, 'w, S, D>, RowRefusal>
        ensures { Checks structure.now duty.now words.now result }
    {
        if words.len() != structure.size() as usize {
            return Err(RowRefusal::WrongLength);
        }
        Ok(Row {
            structure,
            duty,
            words,
        })
    }

    /// Whether the group of the value is enough. An unfit value counts as nothing, so nobody says it.
    pub(crate) fn has_enough(&self, value: &D::Value) -> bool
        ensures { result ≡ has_enough (meaning_of self.now) (heard_row self.now) (D.Value.Same.code value.now) }
    {
        self.duty.fits(value) && self.structure.enough(tally(self.words, value))
    }

    /// Whether the value is weighty: the controllers outside its group are not enough.
    fn is_weighty(&self, value: &D::Value) -> bool
        ensures { result ≡ weighty (meaning_of self.now) (heard_row self.now) (D.Value.Same.code value.now) }
    {
        let all = everyone(self.structure.size());
        self.duty.fits(value)
            && !self
                .structure
                .enough(all.saturating_sub(tally(self.words, value)))
    }

    /// The value at the lowest place that passes the test, or nothing.
    fn first<F: Fn(&D::Value) -> bool>(&self, passes: F) -> Option<D::Value>
        requires { F.IsAlwaysCallable passes }
        ensures { (test : Code → Bool) → Tests F.Fn D.Value.Same.code passes test → word_code D.Value.Same result ≡ first test (codes D.Value.Same self.now.words.now) }
    {
        self.words
            .iter()
            .flatten()
            .find(|value| passes(value))
            .copied()
    }

    /// The value whose group is enough, at the lowest place; or nothing. (The check of lifetimes does not cover this closure in a stage.)
    pub(crate) fn first_enough(&self) -> Option<D::Value>
        ensures { word_code D.Value.Same result ≡ polled (meaning_of self.now) (heard_row self.now) }
    {
        self.first(|value| self.has_enough(value))
    }

    /// The weighty value at the lowest place, or nothing.
    pub(crate) fn first_weighty(&self) -> Option<D::Value>
        ensures { word_code D.Value.Same result ≡ first (weighty (meaning_of self.now) (heard_row self.now)) (heard_row self.now) }
    {
        self.first(|value| self.is_weighty(value))
    }

    /// The word of a controller, or nothing where its value is unfit.
    pub(crate) fn word_of(&self, controller: u8) -> Option<D::Value>
        ensures { word_code D.Value.Same result ≡ word_at (heard_row self.now) controller }
    {
        self.words
            .get(controller as usize)?
            .filter(|value| self.duty.fits(value))
    }
}
