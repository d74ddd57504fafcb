//! The rounds of a slot written down a second time, with a flag for each controller and no thought for speed.

use crate::naive::{Flags, Naive};
use depot::Plan;
use duty::{DutyRefusal, Outcome};
use engine::{Heard, RowRefusal};
use std::array;

/// A word: a plan, or nothing.
pub type Word = Option<Plan>;

/// What a row that was heard led to: the round that is due, or the value of the slot and what the book made of it.
#[derive(Clone, Copy, PartialEq, Eq)]
pub enum Answer {
    Round(u8),
    Closed(Plan, Outcome),
}

impl From<Heard<Plan>> for Answer {
    fn from(heard: Heard<Plan>) -> Answer {
        match heard {
            Heard::Round(round) => Answer::Round(round),
            Heard::Closed(plan, outcome) => Answer::Closed(plan, outcome),
        }
    }
}

/// The kind of round that is due, with what the round before it gave.
#[derive(Clone, Copy)]
enum Due {
    Poll,
    Confirm { y: Word },
    Lead { sure: bool },
}

/// A controller with its book of plans.
#[derive(Drop)]
pub struct Plain {
    yard: Naive,
    size: usize,
    leads: Flags,
    highest: u32,
    in_force: Plan,
    pending: Plan,
    // how many phases of the slot are over
    over: u8,
    x: Plan,
    due: Due,
}

/// The controllers whose word is as wanted.
fn group<F: Fn(Word) -> bool>(words: &[Word], wanted: F) -> Flags
    requires { F.IsAlwaysCallable wanted }
{
    array::from_fn(|place| words.get(place).is_some_and(|word| wanted(*word)))
}

impl Plain {
    /// A controller of a yard that is sealed, with plans up to the highest; nothing where the first does not fit.
    pub fn open(yard: Naive, size: usize, highest: u32, first: Plan) -> Option<Plain> {
        let leads = yard.leads();
        let plain = Plain {
            yard,
            size,
            leads,
            highest,
            in_force: Plan(0),
            pending: first,
            over: 0,
            x: first,
            due: Due::Poll,
        };
        plain.fits(first).then_some(plain)
    }

    fn fits(&self, plan: Plan) -> bool {
        (1..=self.highest).contains(&plan.0)
    }

    pub fn in_force(&self) -> Plan {
        self.in_force
    }

    pub fn offer(&mut self, plan: Plan) -> Result<(), DutyRefusal> {
        if !self.fits(plan) {
            return Err(DutyRefusal::Unfit);
        }
        self.pending = plan;
        Ok(())
    }

    pub fn speak(&self) -> Word {
        match self.due {
            Due::Confirm { y } => y,
            _ => Some(self.x),
        }
    }

    /// Whether enough controllers say the value.
    fn enough_say(&self, words: &[Word], value: Plan) -> bool {
        self.yard
            .enough_flags(&group(words, |word| word == Some(value)))
    }

    /// Whether those who say anything else, or nothing, are not enough.
    fn has_weight(&self, words: &[Word], value: Plan) -> bool {
        !self
            .yard
            .enough_flags(&group(words, |word| word != Some(value)))
    }

    /// The first value of a row that fits and is as wanted.
    fn first<F: Fn(Plan) -> bool>(&self, words: &[Word], wanted: F) -> Word
        requires { F.IsAlwaysCallable wanted }
    {
        words
            .iter()
            .copied()
            .flatten()
            .find(|value| self.fits(*value) && wanted(*value))
    }

    /// What the lead of the phase says, where it fits.
    fn led(&self, words: &[Word]) -> Word {
        let (_, word) = self
            .leads
            .iter()
            .zip(words)
            .filter(|(leads, _)| **leads)
            .nth(usize::from(self.over))?;
        word.filter(|value| self.fits(*value))
    }

    /// How many phases a slot has.
    fn phases(&self) -> usize {
        self.leads.iter().filter(|leads| **leads).count()
    }

    /// The round that is due, from 1.
    fn round(&self) -> u8 {
        let kind = match self.due {
            Due::Poll => 1,
            Due::Confirm { .. } => 2,
            Due::Lead { .. } => 3,
        };
        self.over.saturating_mul(3).saturating_add(kind)
    }

    /// Closes the slot, and begins the next.
    fn close(&mut self) -> Answer {
        let value = self.x;
        self.in_force = value;
        self.over = 0;
        self.x = self.pending;
        Answer::Closed(value, Outcome::Taken)
    }

    pub fn hear(&mut self, words: &[Word]) -> Result<Answer, RowRefusal> {
        if words.len() != self.size {
            return Err(RowRefusal::WrongLength);
        }
        match self.due {
            Due::Poll => {
                let y = self.first(words, |value| self.enough_say(words, value));
                self.due = Due::Confirm { y };
            }
            Due::Confirm { .. } => {
                let weighty = self.first(words, |value| self.has_weight(words, value));
                self.x = weighty.unwrap_or(self.x);
                let sure = self.enough_say(words, self.x);
                self.due = Due::Lead { sure };
            }
            Due::Lead { sure } => {
                if !sure {
                    self.x = self.led(words).unwrap_or(self.x);
                }
                self.due = Due::Poll;
                self.over = self.over.saturating_add(1);
                if usize::from(self.over) >= self.phases() {
                    return Ok(self.close());
                }
            }
        }
        Ok(Answer::Round(self.round()))
    }
}
