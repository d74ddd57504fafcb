//! Grants handed out to the bays of a board.
use depot::{Board, Grant};
use duty::{Duty, DutyRefusal, Outcome};
use std::{fmt, io};

/// What a board answers to a grant, in words.
#[derive(Drop)]
pub struct Answer(pub Result<Outcome, DutyRefusal>);

impl fmt::Display for Answer {
    fn fmt<W: fmt::Write>(&self, f: &mut fmt::Formatter<W>) -> fmt::Result {
        match self.0 {
            Ok(Outcome::Taken) => write!(f, "taken"),
            Ok(Outcome::Aside(reason)) => write!(f, "set aside, {reason}"),
            Err(refusal) => write!(f, "refused, {}", refusal.number()),
        }
    }
}

/// A bar of so many marks.
#[derive(Drop)]
struct Bar(u64);

impl fmt::Display for Bar {
    fn fmt<W: fmt::Write>(&self, f: &mut fmt::Formatter<W>) -> fmt::Result {
        for _ in 0..self.0 {
            write!(f, "#")?;
        }
        Ok(())
    }
}

/// The length of the bar of a bay that draws the whole feed.
const FULL_BAR: u64 = 40;

/// Hands out some grants, and prints what each was answered and the board after them.
pub fn show(rt: &HostRuntime) -> anyhow::Result<()> {
    let mut board = Board::new(5, 100)?;
    let grants = [
        Grant { bay: 0, amps: 60 },
        Grant { bay: 1, amps: 40 },
        // past the feed
        Grant { bay: 1, amps: 41 },
        // lower, on a full board
        Grant { bay: 0, amps: 35 },
        Grant { bay: 4, amps: 20 },
        // no such bay
        Grant { bay: 5, amps: 1 },
        // more than a bay can draw
        Grant {
            bay: 2,
            amps: 1_001,
        },
    ];
    println!(rt; "bay/amps answer")?;
    for grant in &grants {
        let answer = Answer(board.take(grant));
        // in columns, for which a grant's own `Display` takes no width
        println!(rt; "{}/{:<6} {answer}", grant.bay, grant.amps)?;
    }
    println!(rt)?;
    show_board(rt, &board)?;
    Ok(())
}

/// Prints a line with a bar for each bay, and the sum.
pub fn show_board(rt: &HostRuntime, board: &Board) -> io::Result<()> {
    let feed = board.feed();
    println!(rt; "bay  amps")?;
    for (number, bay) in board.bays().iter().enumerate() {
        let amps = bay.amps;
        let bar = Bar(u64::from(amps) * FULL_BAR / u64::from(feed.max(1)));
        println!(rt; "{number:>3} {amps:>5} |{bar}")?;
    }
    println!(rt; "all {:>5} of {feed}", board.total())
}
