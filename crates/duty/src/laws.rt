//! Laws of every duty.
ghost use Rattle.duty.specs.Alike.{AlikeStays};

use crate::duties::Duty;

/// Two duties of one kind that are alike, given the same values, answer the same and are alike again.
pub fn alike_stays<D: Duty>()
    ensures { AlikeStays D.Duty.settings D.Duty.content D.Duty.fitting D.Duty.step }
{}
