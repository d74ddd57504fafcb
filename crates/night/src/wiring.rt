//! Two wirings: one that is sealed, and one that no yard can agree on.

use std::{fmt, io};
use structure::{Group, Structure, belongs};
use survivor::{Draft, DraftRefusal, Table};

/// A group drawn over the controllers of a yard, a column each.
#[derive(Drop)]
struct Columns {
    size: u8,
    group: Group,
    mark: char,
}

impl fmt::Display for Columns {
    fn fmt<W: fmt::Write>(&self, f: &mut fmt::Formatter<W>) -> fmt::Result {
        for i in 0..self.size {
            let mark = if belongs(i, self.group) {
                self.mark
            } else {
                '.'
            };
            write!(f, " {mark:>2}")?;
        }
        Ok(())
    }
}

/// The numbers of the controllers of a yard, over their columns.
#[derive(Drop)]
struct Heads(u8);

impl fmt::Display for Heads {
    fn fmt<W: fmt::Write>(&self, f: &mut fmt::Formatter<W>) -> fmt::Result {
        for i in 0..self.0 {
            write!(f, " {i:>2}")?;
        }
        Ok(())
    }
}

/// The controllers of a group in a yard, by number.
#[derive(Drop)]
struct Members {
    size: u8,
    group: Group,
}

impl fmt::Display for Members {
    fn fmt<W: fmt::Write>(&self, f: &mut fmt::Formatter<W>) -> fmt::Result {
        for i in (0..self.size).filter(|i| belongs(*i, self.group)) {
            write!(f, " {i}")?;
        }
        Ok(())
    }
}

/// The group of a list of controllers.
fn group_of(controllers: &[u8]) -> Group {
    let mut group = 0;
    for &i in controllers {
        if i < 16 {
            group |= 1 << i;
        }
    }
    group
}

/// Prints the sets of a draft: who stands in each, and who may fail together while it goes on.
fn show_sets(rt: &HostRuntime, draft: &Draft) -> io::Result<()> {
    let size = draft.size();
    println!(rt; "  controller{}", Heads(size))?;
    for (place, &group) in (1..).zip(draft.sets()) {
        let members = Columns {
            size,
            group,
            mark: '#',
        };
        let others = Members {
            size,
            group: !group,
        };
        println!(rt; "  set {place:<6}{members}   survives the failure of{others}")?;
    }
    Ok(())
}

/// A draft of these sets for a yard of `n`.
pub fn drafted(n: u32, sets: &[Group]) -> Result<Draft, DraftRefusal> {
    let mut draft = Draft::new(n)?;
    for set in sets {
        draft.add(*set)?;
    }
    Ok(draft)
}

/// Drafts the sets, seals them, and prints what came of it.
fn seal(rt: &HostRuntime, n: u32, sets: &[Group]) -> anyhow::Result<()> {
    let draft = drafted(n, sets)?;
    show_sets(rt, &draft)?;
    let mut table = Table::new();
    match draft.seal(&mut table) {
        Ok(()) => show_leads(rt, &table)?,
        Err(DraftRefusal::NoneShared(p, q, r)) => {
            println!(rt; "Refused with 14: sets {p}, {q} and {r} have no controller in common.")?
        }
        Err(refusal) => println!(rt; "Refused with {}.", refusal.number())?,
    }
    Ok(())
}

/// Prints who leads a sealed table, and what that makes of a slot.
fn show_leads(rt: &HostRuntime, table: &Table) -> io::Result<()> {
    let size = table.size();
    let group = group_of(table.leads());
    let columns = Columns {
        size,
        group,
        mark: '^',
    };
    println!(rt; "  leads     {columns}")?;
    let leads = Members { size, group };
    let phases = table.leads().len();
    println!(rt; "Sealed. The leads are{leads}: {phases} phases in a slot, one for each.")
}

pub fn show(rt: &HostRuntime) -> anyhow::Result<()> {
    println!(rt;
        "A yard of six. Controllers 0, 1 and 2 share a cabinet and fail together; 3, 4 and 5 stand alone."
    )?;
    seal(rt, 6, &[0b111000, 0b110111, 0b101111, 0b011111])?;
    println!(rt)?;
    println!(rt;
        "A yard of three, of which any one may fail. Every two sets share a controller, but not all three."
    )?;
    seal(rt, 3, &[0b011, 0b101, 0b110])
}
