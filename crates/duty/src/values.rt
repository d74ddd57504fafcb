//! Kinds of values.
ghost use Rattle.std.specs.Prelude.{◌≡◌, ◌↔◌, IsTrue};
ghost use Rattle.duty.specs.Codes.{Code};

/// A kind of value. Its meaning is its code, a list of numbers: two values are the same when their codes are equal.
///
/// `same` is not `==`, since the codes alone say what is the same: `PartialEq` would ask laws of its own of each kind.
pub trait Same: Copy {
    ghost code: { Self → Code };

    /// Whether the two are the same value. Asking alters nothing and is never refused.
    fn same(&self, other: &Self) -> bool
        ensures { IsTrue result ↔ (code self.now ≡ code other.now) };
}
