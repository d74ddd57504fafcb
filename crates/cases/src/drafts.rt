//! Drafts: sets that are added to them, and tables that they are sealed into.

use std::{fmt, io};
use structure::{Group, Structure};
use survivor::{Draft, DraftRefusal, Table};

/// Why a call was refused, as its number and its places.
#[derive(Drop)]
struct Refused(DraftRefusal);

impl fmt::Display for Refused {
    fn fmt<W: fmt::Write>(&self, f: &mut fmt::Formatter<W>) -> fmt::Result {
        write!(f, "refused {}", self.0.number())?;
        match self.0 {
            DraftRefusal::Comparable(place) => write!(f, ", place {place}"),
            DraftRefusal::NoneShared(p, q, r) => write!(f, ", places {p} {q} {r}"),
            _ => Ok(()),
        }
    }
}

/// A list as it is printed, with a space before each of its items.
#[derive(Drop)]
pub struct Listed<'a, T>(pub &'a [T]);

impl<T: fmt::Display> fmt::Display for Listed<'_, T> {
    fn fmt<W: fmt::Write>(&self, f: &mut fmt::Formatter<W>) -> fmt::Result {
        for item in self.0 {
            write!(f, " {item}")?;
        }
        Ok(())
    }
}

/// The sealed table of a yard of `n` with these sets. (Other programs draft theirs likewise: they share no crate, and tell of a refused
/// set otherwise.)
pub fn sealed(n: u32, sets: &[Group]) -> Result<Table, DraftRefusal> {
    let mut draft = Draft::new(n)?;
    for set in sets {
        draft.add(*set)?;
    }
    let mut table = Table::new();
    draft.seal(&mut table)?;
    Ok(table)
}

fn seal(rt: &HostRuntime, n: u32, sets: &[Group]) -> io::Result<()> {
    print!(rt; "seal n {n}, sets{}: ", Listed(sets))?;
    match sealed(n, sets) {
        Ok(table) => println!(rt; "leads{}", Listed(table.leads())),
        Err(refusal) => println!(rt; "{}", Refused(refusal)),
    }
}

/// Drafts that are sealed, and some that are not.
pub fn sealing(rt: &HostRuntime) -> io::Result<()> {
    seal(rt, 4, &[7, 11, 13, 14])?;
    seal(rt, 1, &[1])?;
    seal(rt, 6, &[56, 55, 47, 31])?;
    seal(rt, 3, &[3, 5, 6])?;
    seal(rt, 2, &[1, 2])?;
    seal(rt, 5, &[])?;
    seal(rt, 0, &[])?;
    seal(rt, 16, &[65535])?;
    seal(rt, 17, &[])
}

/// Groups of the yard of six that are enough, and some that are not: three of one cabinet weigh as one.
pub fn enough(rt: &HostRuntime) -> anyhow::Result<()> {
    let table = sealed(6, &[56, 55, 47, 31])?;
    for group in [
        0b111000, 0b000111, 0b011111, 0b001111, 0b1_111000, 0b1_000111,
    ] {
        let enough = table.enough(group);
        println!(rt; "table n 6, sets 56 55 47 31, group {group}: enough {enough}")?;
    }
    Ok(())
}

fn add(rt: &HostRuntime, draft: &mut Draft, set: Group) -> io::Result<()> {
    match draft.add(set) {
        Ok(()) => println!(rt; "add {set}: place {}", draft.sets().len()),
        Err(refusal) => println!(rt; "add {set}: {}", Refused(refusal)),
    }
}

/// Sets that a draft takes, and sets that it does not.
pub fn adding(rt: &HostRuntime) -> anyhow::Result<()> {
    let mut four = Draft::new(4)?;
    println!(rt; "n 4: an empty set, bit 4, a subset, a superset, an equal set")?;
    for set in [0, 16, 0b0110, 0b1011, 0b0010, 0b1110, 0b1011] {
        add(rt, &mut four, set)?;
    }
    println!(rt;
        "n 16: 64 pairs, then a 65th set; emptiness comes before fullness, and fullness before order"
    )?;
    let mut full = Draft::new(16)?;
    for i in 0u8..8 {
        for j in 8u8..16 {
            full.add((1 << i) | (1 << j))?;
        }
    }
    println!(rt; "it holds {}", full.sets().len())?;
    for set in [0, 3, 0x0101] {
        add(rt, &mut full, set)?;
    }
    Ok(())
}
