ghost use Rattle.std.specs.Prelude.{◌≡◌};
ghost use Rattle.survivor.specs.Refusals.{number};

use thiserror::Error;

/// Why a call on a draft was refused. A place is that of a set in the draft, from 1.
#[derive(Clone, Copy, PartialEq, Eq, Debug, Error)]
pub enum DraftRefusal {
    /// 1: a yard has 1 to 16 controllers.
    #[error("a yard has 1 to 16 controllers")]
    YardSize,
    /// 2: the set is empty, or names a controller outside the yard.
    #[error("the set is empty, or names a controller outside the yard")]
    EmptyOrOutside,
    /// 11: the draft has 64 sets.
    #[error("the draft has 64 sets")]
    Full,
    /// 12: the set contains, equals or lies within the one at this place, the lowest such place.
    #[error("the set contains, equals or lies within the one at place {0}")]
    Comparable(usize),
    /// 13: the draft has no set.
    #[error("the draft has no set")]
    NoSet,
    /// 14: the sets at these three places, which need not differ, share no controller.
    #[error("the sets at places {0}, {1} and {2} share no controller")]
    NoneShared(usize, usize, usize),
}

impl DraftRefusal {
    /// The number by which the refusal is known.
    pub fn number(self) -> u8
        ensures { result ≡ number self }
    {
        match self {
            DraftRefusal::YardSize => 1,
            DraftRefusal::EmptyOrOutside => 2,
            DraftRefusal::Full => 11,
            DraftRefusal::Comparable(_) => 12,
            DraftRefusal::NoSet => 13,
            DraftRefusal::NoneShared(_, _, _) => 14,
        }
    }
}
