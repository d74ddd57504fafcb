//! The bays of a board.
ghost use Rattle.std.specs.Prelude.{◌<◌};
ghost use Rattle.arrayvec.specs.ArrayVec.{array_vec_len};
ghost use Rattle.depot.specs.Bays.{OnlyChanges};

use arrayvec::ArrayVec;

/// A charging bay: the amps that it may draw.
#[derive(Clone, Copy, PartialEq, Eq, Debug, Default)]
pub struct Bay {
    pub amps: u32,
}

/// The bays of a board, in order: up to 64.
#[derive(Drop)]
pub(crate) struct Bays {
    pub(crate) records: ArrayVec<Bay, 64>,
}

impl Bays {
    /// Changes the amps of this bay and of no other.
    pub(crate) fn set_amps(&mut self, bay: usize, amps: u32)
        requires { bay < array_vec_len self.old.records }
        ensures { OnlyChanges self.old.records.items self.new.records.items bay amps }
    {
        self.records[bay].amps = amps;
    }
}
