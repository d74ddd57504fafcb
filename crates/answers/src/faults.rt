//! Why a line is refused, and the number and the detail by which that is told.
ghost use Rattle.std.specs.Prelude.{◌≡◌};
ghost use Rattle.answers.specs.Faults.{number, detail};
ghost use Rattle.answers.specs.declared.faults.Fault.TheVariants.{Field, Draft, Settings, Duty, Row};

use depot::SettingsRefusal;
use duty::DutyRefusal;
use engine::RowRefusal;
use fields::FieldFault;
use survivor::DraftRefusal;
use thiserror::Error;

/// Why a line was refused: by its own form, or by the layer below, whose fault is kept whole.
#[derive(Clone, Copy, PartialEq, Eq, Debug, Error)]
pub enum Fault {
    /// 7: the line has more than 256 bytes.
    #[error("the line has more than 256 bytes")]
    TooLong,
    /// 7: the field is faulty, missing or surplus.
    #[error(transparent)]
    Field(FieldFault),
    /// 16: the line needs a draft, a sealed table or a controller that is not there.
    #[error("the line needs a draft, a sealed table or a controller that is not there")]
    Absent,
    /// 1, 2 or 11 to 14: the draft refused it.
    #[error(transparent)]
    Draft(DraftRefusal),
    /// 6: the duty's settings are out of range.
    #[error(transparent)]
    Settings(SettingsRefusal),
    /// 4: the duty refused the value.
    #[error(transparent)]
    Duty(DutyRefusal),
    /// 3: the controller refused the row.
    #[error(transparent)]
    Row(RowRefusal),
}

/// A refused line: which, and why.
#[derive(Clone, Copy, PartialEq, Eq, Debug, Error)]
#[error("line {line}: {fault}")]
pub struct Refusal {
    pub line: u32,
    pub fault: Fault,
}

impl Fault {
    /// The number by which the fault is known.
    pub fn number(self) -> u8
        ensures { result ≡ number self }
    {
        match self {
            Fault::TooLong | Fault::Field(_) => 7,
            Fault::Absent => 16,
            Fault::Draft(refusal) => refusal.number(),
            Fault::Settings(refusal) => refusal.number(),
            Fault::Duty(refusal) => refusal.number(),
            Fault::Row(refusal) => refusal.number(),
        }
    }

    /// The field for 7, which is 0 where the line is too long; the lowest place for 12; else 0. (The text tells a number in any case, and 0
    /// for none, so this is no `Option`.)
    pub fn detail(self) -> usize
        ensures { result ≡ detail self }
    {
        match self {
            Fault::Field(fault) => fault.field as usize,
            Fault::Draft(DraftRefusal::Comparable(place)) => place,
            _ => 0,
        }
    }
}

// The `From` of each layer's fault is written out, since clauses name the fault that `?` makes of it: a derived one has no contract.

impl From<FieldFault> for Fault {
    ghost from_gives = { λ e r. r ≡ Field e };

    fn from(e: FieldFault) -> Fault {
        Fault::Field(e)
    }
}

impl From<DraftRefusal> for Fault {
    ghost from_gives = { λ e r. r ≡ Draft e };

    fn from(e: DraftRefusal) -> Fault {
        Fault::Draft(e)
    }
}

impl From<SettingsRefusal> for Fault {
    ghost from_gives = { λ e r. r ≡ Settings e };

    fn from(e: SettingsRefusal) -> Fault {
        Fault::Settings(e)
    }
}

impl From<DutyRefusal> for Fault {
    ghost from_gives = { λ e r. r ≡ Duty e };

    fn from(e: DutyRefusal) -> Fault {
        Fault::Duty(e)
    }
}

impl From<RowRefusal> for Fault {
    ghost from_gives = { λ e r. r ≡ Row e };

    fn from(e: RowRefusal) -> Fault {
        Fault::Row(e)
    }
}
