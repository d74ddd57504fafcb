//! Who says what in a row.
ghost use Rattle.std.specs.Prelude.{◌≡◌, ◌^◌, ◌<◌, take};
ghost use Rattle.rounds.specs.Rows.{group, says};
ghost use Rattle.engine.specs.Words.{word_code, codes};

use duty::Same;
use structure::Group;

/// The group of a value: the controllers whose word is the value. A yard has 16 controllers at most, so later words do not
/// count. Unfit values are not sifted out here; the calls that hear a row do that.
pub fn tally<V: Same>(words: &[Option<V>], value: &V) -> Group
    ensures { result ≡ group (V.Same.code value.now) (codes V.Same (take 16 words.now)) }
{
    let counted = &words[..words.len().min(16)];
    // the mask is built in one loop over the row, by the place of each word
    let mut group = 0;
    for (i, word) in counted.iter().enumerate() {
        if says(word, value) {
            group |= alone(i);
        }
    }
    group
}

/// Whether the word is the value.
fn says<V: Same>(word: &Option<V>, value: &V) -> bool
    ensures { result ≡ says (V.Same.code value.now) (word_code V.Same word.now) }
{
    word.as_ref().is_some_and(|said| value.same(said))
}

/// The group of one controller alone.
fn alone(controller: usize) -> Group
    requires { controller < 16 }
    ensures { result ≡ 2 ^ controller }
{
    1 << controller
}
