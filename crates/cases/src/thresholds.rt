//! Threshold structures.

use std::{fmt, io};
use structure::Structure;
use threshold::{Threshold, greatest_faults};

/// The leads of a threshold structure as they are printed, with a space before each.
#[derive(Drop)]
struct Leads(Threshold);

impl fmt::Display for Leads {
    fn fmt<W: fmt::Write>(&self, f: &mut fmt::Formatter<W>) -> fmt::Result {
        for lead in (0..17).map_while(|place| self.0.lead(place)) {
            write!(f, " {lead}")?;
        }
        Ok(())
    }
}

fn make(rt: &HostRuntime, n: u32, t: u32) -> io::Result<()> {
    match Threshold::new(n, t) {
        Ok(yard) => println!(rt; "threshold n {n}, t {t}: stands, leads{}", Leads(yard)),
        Err(refusal) => println!(rt; "threshold n {n}, t {t}: refused {}", refusal.number()),
    }
}

/// Fault numbers that a yard can have, and some that it cannot.
pub fn making(rt: &HostRuntime) -> io::Result<()> {
    for (n, t) in [
        (4, 1),
        (3, 1),
        (16, 5),
        (16, 6),
        (1, 0),
        (0, 0),
        (17, 0),
        (4, u32::MAX),
    ] {
        make(rt, n, t)?;
    }
    Ok(())
}

/// Groups of a threshold structure of 4 and 1 that are enough, and some that are not: two bits lie outside the yard.
pub fn enough(rt: &HostRuntime) -> anyhow::Result<()> {
    let yard = Threshold::new(4, 1)?;
    for group in [0b1111, 0b0111, 0b1101, 0b0101, 0b11_0101, 0b11_0111, 0] {
        println!(rt;
            "threshold n 4, t 1, group {group}: enough {}",
            yard.enough(group)
        )?;
    }
    Ok(())
}

/// The greatest fault number of each size.
pub fn greatest(rt: &HostRuntime) -> io::Result<()> {
    print!(rt; "greatest t for n from 0 to 17:")?;
    for n in 0..18 {
        match greatest_faults(n) {
            Ok(t) => print!(rt; " {t}")?,
            Err(refusal) => print!(rt; " (refused {})", refusal.number())?,
        }
    }
    println!(rt)
}
