//! The calls of a controller. Each clause names the structure, the duty and the kind of values, since a controller's type does not
//! say which of their meanings it runs on.
ghost use Rattle.std.specs.Prelude.{◌≡◌, Result};
ghost use Rattle.duty.specs.Taking.{Takes};
ghost use Rattle.engine.specs.Promises.{Opens, Offers, Speaks, Hears, Settles};

use crate::controllers::{Controller, Heard, Held, Unopened};
use crate::phases::Phase;
use crate::refusals::RowRefusal;
use crate::rows::Row;
use crate::stages::{Confirm, Lead, Next, Poll};
use duty::{Duty, DutyRefusal, Outcome};
use structure::Structure;

/// Has the duty take a closed value. One that it refuses is set aside under the refusal's number.
fn settle<D: Duty>(duty: &mut D, value: &D::Value) -> Outcome
    ensures { Settles D.Duty duty.old (D.Value.Same.code value.now) result duty.new }
{
    match duty.take(value) {
        Ok(outcome) => outcome,
        Err(refusal) => Outcome::Aside(refusal.number()),
    }
}

impl<S: Structure, D: Duty> Controller<S, D> {
    /// Opens a controller on a structure and a duty. The first proposal begins the first slot, and is pending for the next.
    ///
    /// Refused with 4 where it does not fit; structure and duty come back as they were.
    pub fn open(structure: S, duty: D, first: D::Value) -> Result<Controller<S, D>, Unopened<S, D>>
        ensures { Opens S.Structure D.Duty D.Value.Same structure duty first result }
    {
        if !duty.fits(&first) {
            return Err(Unopened {
                structure,
                duty,
                refusal: DutyRefusal::Unfit,
            });
        }
        Ok(Controller {
            structure,
            duty,
            phase: Phase::first(),
            held: Held::Poll { x: first },
            pending: first,
        })
    }

    /// Replaces the pending proposal, and leaves the running slot. Refused with 4 where it does not fit; then nothing changes.
    pub fn offer(&mut self, value: D::Value) -> Result<(), DutyRefusal>
        ensures { Offers S.Structure D.Duty D.Value.Same self.old value result self.new }
    {
        if !self.duty.fits(&value) {
            return Err(DutyRefusal::Unfit);
        }
        self.pending = value;
        Ok(())
    }

    /// The word of the round that is due. Speaking alters nothing.
    pub fn speak(&self) -> Option<D::Value>
        ensures { Speaks S.Structure D.Duty D.Value.Same self.now result }
    {
        match self.held {
            Held::Poll { x } => Some(x),
            Held::Confirm { x: _, y } => y,
            Held::Lead { z, sure: _ } => Some(z),
        }
    }

    /// Hears a row: one round of the slot. It answers the round now due, or the closed value with the duty's outcome; the next slot
    /// then begins with the pending proposal.
    ///
    /// Refused with 3 where the row has not one word for each controller; then nothing changes.
    pub fn hear(&mut self, words: &[Option<D::Value>]) -> Result<Heard<D::Value>, RowRefusal>
        ensures { Hears S.Structure D.Duty D.Value.Same self.old words.now result self.new }
    {
        let held = self.held;
        let phase = self.phase;
        let row = Row::check(&self.structure, &self.duty, words)?;
        match held {
            Held::Poll { x } => {
                let next = Poll { phase, x }.hear(&row);
                self.held = Held::Confirm {
                    x: next.x,
                    y: next.y,
                };
                Ok(Heard::Round(3 * phase.number + 2))
            }
            Held::Confirm { x, y } => {
                let next = Confirm { phase, x, y }.hear(&row);
                self.held = Held::Lead {
                    z: next.z,
                    sure: next.sure,
                };
                Ok(Heard::Round(3 * phase.number + 3))
            }
            Held::Lead { z, sure } => match (Lead { phase, z, sure }).hear(&row) {
                Next::Poll(poll) => {
                    self.phase = poll.phase;
                    self.held = Held::Poll { x: poll.x };
                    Ok(Heard::Round(3 * phase.number + 4))
                }
                Next::Closed(closed) => {
                    let value = closed.value();
                    let outcome = settle(&mut self.duty, &value);
                    self.phase = Phase::first();
                    self.held = Held::Poll { x: self.pending };
                    Ok(Heard::Closed(value, outcome))
                }
            },
        }
    }

    /// The duty, with what the closed values made of it.
    pub fn duty(&self) -> &D
        ensures { result.now ≡ self.now.duty }
    {
        &self.duty
    }

    /// Ends the controller, and gives back what it ran on.
    pub fn into_parts(self) -> (S, D)
        ensures structure { result.0 ≡ self.structure }
        ensures duty { result.1 ≡ self.duty }
    {
        let Controller {
            structure,
            duty,
            phase: _,
            held: _,
            pending: _,
        } = self;
        (structure, duty)
    }
}
