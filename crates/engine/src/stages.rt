//! The stages of a slot, one type for each: a row uses a stage up and gives the next.
//!
//! All rows of a slot are to be checked on one structure and one duty; a controller sees to that.
ghost use Rattle.std.specs.Prelude.{◌≡◌, true, Some, None};
ghost use Rattle.rounds.specs.Rows.{word_at};
ghost use Rattle.rounds.specs.Rounds.{weighty, first, led};
ghost use Rattle.rounds.specs.Laws.{Polls, Confirms, Leads};
ghost use Rattle.rounds.specs.Slots.{speaks, lead_of};
ghost use Rattle.rounds.specs.Slots.Stage.{poll};
ghost use Rattle.engine.specs.Words.{word_code};
ghost use Rattle.engine.specs.Rows.{meaning_of, heard_row, after_row, Whole};
ghost use Rattle.engine.specs.Stages.{poll_stage, confirm_stage, lead_stage, next_stage, held, closed_value};

use crate::phases::Phase;
use crate::rows::Row;
use duty::{Duty, Same};
use structure::Structure;

/// The poll round of a phase is due, with the value held.
#[derive(Drop)]
pub struct Poll<V> {
    pub(crate) phase: Phase,
    pub(crate) x: V,
}

/// The confirm round is due, with the value held and what the poll gave.
#[derive(Drop)]
pub struct Confirm<V> {
    pub(crate) phase: Phase,
    pub(crate) x: V,
    pub(crate) y: Option<V>,
}

/// The lead round is due, with the value confirmed and whether the controller is sure of it. (The value is there in both cases, so an
/// enum of the two would only say it twice.)
#[derive(Drop)]
pub struct Lead<V> {
    pub(crate) phase: Phase,
    pub(crate) z: V,
    pub(crate) sure: bool,
}

/// The slot is closed, with its value. It comes of a lead round alone.
#[derive(Drop)]
pub struct Closed<V> {
    pub(crate) x: V,
}

/// What comes after a phase: the next one, or the close.
#[derive(Drop)]
pub enum Next<V> {
    Poll(Poll<V>),
    Closed(Closed<V>),
}

impl<V: Same + Drop> Poll<V> {
    /// Begins a slot with a value. What a slot promises is of values that fit.
    pub fn open(x: V) -> Poll<V>
        ensures stage { poll_stage V.Same result ≡ poll 0 (V.Same.code x) }
        ensures same { result.x ≡ x }
    {
        Poll {
            phase: Phase::first(),
            x,
        }
    }

    /// The word of this round: the value held.
    pub fn speak(&self) -> Option<V>
        ensures word { word_code V.Same result ≡ speaks (poll_stage V.Same self.now) }
        ensures same { result ≡ Some self.now.x }
    {
        Some(self.x)
    }

    /// Hears the row of the poll: the value whose group is enough goes on to be confirmed.
    pub fn hear<'w, S: Structure, D: Duty<Value = V>>(self, row: &Row<'_, 'w, S, D>) -> Confirm<V>
    where
        V: 'w,
        ensures stage { confirm_stage V.Same result ≡ after_row row.now (poll_stage V.Same self) }
        ensures same { result.x ≡ self.x }
        ensures polls { Polls (meaning_of row.now) (heard_row row.now) (word_code V.Same result.y) }
    {
        Confirm {
            phase: self.phase,
            x: self.x,
            y: row.first_enough(),
        }
    }

    /// Hears the three rows of a phase.
    pub fn hear_phase<'w, S: Structure, D: Duty<Value = V>>(
        self,
        polled: &Row<'_, 'w, S, D>,
        confirmed: &Row<'_, 'w, S, D>,
        led: &Row<'_, 'w, S, D>,
    ) -> Next<V>
    where
        V: 'w,
        ensures { next_stage V.Same result ≡ after_row led.now (after_row confirmed.now (after_row polled.now (poll_stage V.Same self))) }
    {
        let confirm = self.hear(polled);
        let lead = confirm.hear(confirmed);
        lead.hear(led)
    }
}

impl<V: Same + Drop> Confirm<V> {
    /// The word of this round: what the poll gave.
    pub fn speak(&self) -> Option<V>
        ensures word { word_code V.Same result ≡ speaks (confirm_stage V.Same self.now) }
        ensures same { result ≡ self.now.y }
    {
        self.y
    }

    /// Hears the row of the confirmation: the weighty value at the lowest place is confirmed, or else the value held. Every row that
    /// `Row::check` gives is whole.
    pub fn hear<'w, S: Structure, D: Duty<Value = V>>(self, row: &Row<'_, 'w, S, D>) -> Lead<V>
    where
        V: 'w,
        ensures stage { lead_stage V.Same result ≡ after_row row.now (confirm_stage V.Same self) }
        ensures same { first (weighty (meaning_of row.now) (heard_row row.now)) (heard_row row.now) ≡ None → result.z ≡ self.x }
        ensures confirms { Whole row.now → Confirms (meaning_of row.now) (heard_row row.now) (V.Same.code self.x) (V.Same.code result.z) result.sure }
    {
        let z = row.first_weighty().unwrap_or(self.x);
        Lead {
            phase: self.phase,
            z,
            sure: row.has_enough(&z),
        }
    }
}

impl<V: Same + Drop> Lead<V> {
    /// The word of this round: the value confirmed.
    pub fn speak(&self) -> Option<V>
        ensures word { word_code V.Same result ≡ speaks (lead_stage V.Same self.now) }
        ensures same { result ≡ Some self.now.z }
    {
        Some(self.z)
    }

    /// Hears the row of the lead round, which ends the phase.
    pub fn hear<'w, S: Structure, D: Duty<Value = V>>(self, row: &Row<'_, 'w, S, D>) -> Next<V>
    where
        V: 'w,
        ensures stage { next_stage V.Same result ≡ after_row row.now (lead_stage V.Same self) }
        ensures sure { self.sure ≡ true → held result ≡ self.z }
        ensures nothing { word_at (heard_row row.now) (lead_of (meaning_of row.now) self.phase.number) ≡ None → held result ≡ self.z }
        ensures leads { Leads (meaning_of row.now) (heard_row row.now) (V.Same.code self.z) self.sure (lead_of (meaning_of row.now) self.phase.number) (V.Same.code (held result)) }
    {
        let x = self.led(row);
        match self.phase.next(row.structure) {
            Some(phase) => Next::Poll(Poll { phase, x }),
            None => Next::Closed(Closed { x }),
        }
    }

    /// The value that the phase ends with: one that is sure keeps its own, another takes the lead's.
    fn led<'w, S: Structure, D: Duty<Value = V>>(&self, row: &Row<'_, 'w, S, D>) -> V
    where
        V: 'w,
        ensures value { V.Same.code result ≡ led (meaning_of row.now) (V.Same.code self.now.z) self.now.sure (lead_of (meaning_of row.now) self.now.phase.number) (heard_row row.now) }
        ensures sure { self.now.sure ≡ true → result ≡ self.now.z }
        ensures nothing { word_at (heard_row row.now) (lead_of (meaning_of row.now) self.now.phase.number) ≡ None → result ≡ self.now.z }
    {
        if self.sure {
            return self.z;
        }
        let lead = self.phase.lead(row.structure);
        row.word_of(lead).unwrap_or(self.z)
    }
}

impl<V: Same> Closed<V> {
    /// The value of the slot.
    pub fn value(&self) -> V
        ensures { result ≡ self.now.x }
    {
        self.x
    }
}

impl<V: Same> Next<V> {
    /// The value of the slot, or nothing where the slot goes on.
    pub fn closed(&self) -> Option<V>
        ensures { result ≡ closed_value self.now }
    {
        match self {
            Next::Poll(_) => None,
            Next::Closed(closed) => Some(closed.value()),
        }
    }
}
