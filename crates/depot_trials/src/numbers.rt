//! Numbers that look random, the same in every run.
ghost use Rattle.std.specs.Prelude.{◌<◌};

/// A xorshift generator. `trials` has another: each crate's results are of its own sequence, and a crate for both would be longer.
#[derive(Drop)]
pub struct Numbers(u64);

impl Numbers {
    pub fn new(seed: u64) -> Numbers {
        Numbers(seed.max(1))
    }

    /// A number below the bound, or 0 where the bound is 0.
    pub fn below(&mut self, bound: u32) -> u32
        ensures { 0 < bound → result < bound }
    {
        let mut x = self.0;
        x ^= x << 13;
        x ^= x >> 7;
        x ^= x << 17;
        self.0 = x;
        if bound == 0 {
            return 0;
        }
        (x % u64::from(bound)) as u32
    }
}
