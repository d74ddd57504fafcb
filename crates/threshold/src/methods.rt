ghost use Rattle.std.specs.Prelude.{◌≡◌};
ghost use Rattle.threshold.specs.Refusals.{said};
ghost use Rattle.threshold.specs.Thresholds.{size_of, faults_of, meaning_of, making, MadeBecause, asking, AnsweredBecause};
ghost use Rattle.threshold.specs.Laws.{threshold_lawful};

use crate::refusals::ThresholdRefusal;
use crate::thresholds::Threshold;
use structure::{Group, Structure, everyone, is_yard_size};

impl Threshold {
    /// The threshold structure of `n` controllers with the fault number `t`.
    ///
    /// Refused with 1 where `n` is 0 or above 16, then with 5 where 3 × `t` is `n` or more.
    pub fn new(n: u32, t: u32) -> Result<Threshold, ThresholdRefusal>
        ensures answer { said result ≡ making n t }
        ensures reason { MadeBecause n t result }
    {
        if !is_yard_size(n) {
            return Err(ThresholdRefusal::YardSize);
        }
        if t.saturating_mul(3) >= n {
            return Err(ThresholdRefusal::TooManyFaults);
        }
        Ok(Threshold {
            size: n as u8,
            faults: t as u8,
        })
    }

    /// The fault number.
    pub fn faults(&self) -> u8
        ensures { result ≡ faults_of self.now }
    {
        self.faults
    }
}

/// The greatest fault number that a yard of `n` controllers can have. Refused with 1 where `n` is 0 or above 16.
pub fn greatest_faults(n: u32) -> Result<u8, ThresholdRefusal>
    ensures answer { said result ≡ asking n }
    ensures reason { AnsweredBecause n result }
{
    if !is_yard_size(n) {
        return Err(ThresholdRefusal::YardSize);
    }
    Ok(((n - 1) / 3) as u8)
}

impl Structure for Threshold {
    ghost meaning = { meaning_of };

    ghost lawful = { λ s. threshold_lawful s.size s.faults s.high s.third };

    fn size(&self) -> u8 {
        self.size
    }

    fn enough(&self, group: Group) -> bool {
        let members = (group & everyone(self.size)).count_ones();
        members >= u32::from(self.size - self.faults)
    }

    fn lead(&self, place: usize) -> Option<u8> {
        (place <= usize::from(self.faults)).then(|| place as u8)
    }
}
