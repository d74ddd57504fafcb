//! Numbers that look random, the same in every run.
ghost use Rattle.std.specs.Prelude.{◌<◌};

/// A xorshift generator. `depot_trials` has another: each crate's results are of its own sequence, and a crate for both would be longer.
#[derive(Drop)]
pub struct Dice(u64);

impl Dice {
    pub fn new(seed: u64) -> Dice {
        Dice(seed | 1)
    }

    /// A number below `n`, or 0 where `n` is 0.
    pub fn below(&mut self, n: u32) -> u32
        ensures { 0 < n → result < n }
    {
        let mut x = self.0;
        x ^= x << 13;
        x ^= x >> 7;
        x ^= x << 17;
        self.0 = x;
        if n == 0 {
            return 0;
        }
        ((x >> 11) % u64::from(n)) as u32
    }

    /// A group of the first `n` controllers, each in it by a chance of `share` in 8; now and then one outside.
    pub fn group(&mut self, n: u32, share: u32) -> u16 {
        let mut group = 0;
        for i in 0u32..16 {
            let chance = if i < n { share } else { 0 };
            if self.below(8) < chance || self.below(400) == 0 {
                group |= 1 << i;
            }
        }
        group
    }

    /// The first `n` controllers but for fewer than a third of them: any three such groups share one.
    pub fn most(&mut self, n: u32) -> u16 {
        let mut group = 0;
        for i in 0..n.min(16) {
            group |= 1 << i;
        }
        for _ in 0..n.saturating_sub(1) / 3 {
            group &= !(1 << (self.below(n) % 16));
        }
        group
    }
}
