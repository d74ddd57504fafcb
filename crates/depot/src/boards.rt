//! The board. `board_duty` has its calls.
ghost use Rattle.std.specs.Prelude.{◌≤◌, sum};
ghost use Rattle.arrayvec.specs.ArrayVec.{array_vec_len};
ghost use Rattle.depot.specs.Bays.{amps_of};

use crate::bays::Bays;

/// What each bay of a depot may draw: 1 to 64 bays on a feed of at most 32,000 A. The bays never sum to more than the feed.
#[derive(Drop)]
pub struct Board {
    pub(crate) feed: u32,
    pub(crate) bays: Bays,
    ghost some: { 1 ≤ array_vec_len bays.records },
    ghost few: { array_vec_len bays.records ≤ 64 },
    ghost rated: { feed ≤ 32000 },
    ghost within: { sum (amps_of bays.records.items) ≤ feed },
}
