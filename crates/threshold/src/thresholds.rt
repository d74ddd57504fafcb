//! `specs/` names this type and so cannot be cited here: the methods stand in `methods`.
ghost use Rattle.std.specs.Prelude.{◌*◌, ◌<◌, ◌≤◌};

/// A yard of `size` controllers of which up to `faults` may be faulty, fewer than a third.
#[derive(Clone, Copy)]
pub struct Threshold {
    pub(crate) size: u8,
    pub(crate) faults: u8,
    ghost high: { size ≤ 16 },
    ghost third: { 3 * faults < size },
}
