//! Whole slots in two yards where some controllers lie: what is said round by round, and what the good ones close with.

use crate::grants::{Answer, show_board};
use crate::wiring::drafted;
use agreement::{OwnRounds, seal_agreed};
use anyhow::ensure;
use depot::{Board, Grant};
use duty::{Duty, DutyRefusal};
use engine::{Controller, Heard};
use std::fmt;
use structure::Group;
use survivor::{DraftRefusal, Table};

/// A word: a grant, or nothing.
type Word = Option<Grant>;

/// The most controllers that a yard has.
const LARGEST: usize = 16;

/// A word of each good controller, or for each.
type Words = [Word; 3];

/// What the liars say in a slot: a line for each round, with a word for each good controller.
type Lies = [Words; 6];

/// A word as it is printed.
#[derive(Drop)]
struct Shown(Word);

impl fmt::Display for Shown {
    fn fmt<W: fmt::Write>(&self, f: &mut fmt::Formatter<W>) -> fmt::Result {
        match self.0 {
            // in columns, for which a grant's own `Display` takes no width
            Some(Grant { bay, amps }) => write!(f, "{bay:>3}/{amps}"),
            None => write!(f, "     -"),
        }
    }
}

/// Three words as they are printed.
#[derive(Drop)]
struct Said(Words);

impl fmt::Display for Said {
    fn fmt<W: fmt::Write>(&self, f: &mut fmt::Formatter<W>) -> fmt::Result {
        for word in &self.0 {
            write!(f, "{}", Shown(*word))?;
        }
        Ok(())
    }
}

/// A good controller, and its place in the yard.
#[derive(Drop)]
struct Good {
    place: usize,
    controller: Controller<Table, Board>,
}

impl Good {
    /// One on an empty board of four bays and a feed of 100 A.
    fn open(table: &Table, place: usize, first: Grant) -> anyhow::Result<Good> {
        let board = Board::new(4, 100)?;
        let controller = Controller::open(*table, board, first).map_err(
            |unopened| unopened.refusal,
        )?;
        Ok(Good { place, controller })
    }
}

/// A yard, by its good controllers. The others lie, and all say the same.
#[derive(Drop)]
struct Yard {
    size: usize,
    liars: &'static str,
    good: [Good; 3],
}

impl Yard {
    fn places(&self) -> [usize; 3] {
        self.good.each_ref().map(|good| good.place)
    }

    /// What the good controllers say in the round that is due.
    fn speak(&self) -> Words {
        self.good.each_ref().map(|good| good.controller.speak())
    }

    /// A row for each good controller: what the good ones spoke, and everywhere else what the liars tell this one. The places of the
    /// yard are heard, and no others.
    fn rows(&self, spoken: &Words, lies: &Words) -> [[Word; LARGEST]; 3] {
        lies.map(|lie| {
            let mut row = [lie; LARGEST];
            for (good, word) in self.good.iter().zip(spoken) {
                if let Some(told) = row.get_mut(good.place) {
                    *told = *word;
                }
            }
            row
        })
    }

    /// Each good controller is offered this grant for the next slot.
    fn offer(&mut self, grant: Grant) -> Result<(), DutyRefusal> {
        for good in self.good.iter_mut() {
            good.controller.offer(grant)?;
        }
        Ok(())
    }

    /// One round; prints what a good controller answers where its slot closes.
    fn round(&mut self, rt: &HostRuntime, spoken: &Words, lies: &Words) -> anyhow::Result<()> {
        let rows = self.rows(spoken, lies);
        let size = self.size.min(LARGEST);
        for (good, row) in self.good.iter_mut().zip(&rows) {
            if let Heard::Closed(grant, outcome) = good.controller.hear(&row[..size])? {
                println!(rt;
                    "{} closes with {grant}, {}",
                    good.place,
                    Answer(Ok(outcome))
                )?;
            }
        }
        Ok(())
    }

    /// Runs a slot with these lies, and prints each round of it.
    fn slot(&mut self, rt: &HostRuntime, lies: &Lies) -> anyhow::Result<()> {
        let [a, b, c] = self.places();
        println!(rt;
            "round{a:>6}{b:>6}{c:>6}   {:<10}{a:>6}{b:>6}{c:>6}",
            self.liars
        )?;
        for (round, told) in (1..).zip(lies) {
            let spoken = self.speak();
            println!(rt; "{round:>5}{}             {}", Said(spoken), Said(*told))?;
            self.round(rt, &spoken, told)?;
        }
        Ok(())
    }

    /// Prints the board on which the good controllers agree.
    fn show_agreed(&self, rt: &HostRuntime) -> anyhow::Result<()> {
        let [a, b, c] = &self.good;
        let board = a.controller.duty();
        for other in [b, c] {
            ensure!(
                other.controller.duty().bays() == board.bays(),
                "the boards differ"
            );
        }
        println!(rt;
            "{}, {} and {} all have this board:",
            a.place, b.place, c.place
        )?;
        show_board(rt, board)?;
        Ok(())
    }
}

/// A table of these sets for a yard of `n`.
fn seal(n: u32, sets: &[Group]) -> Result<Table, DraftRefusal> {
    let draft = drafted(n, sets)?;
    let mut table = Table::new();
    seal_agreed::<OwnRounds, Table, Board>(&draft, &mut table)?;
    Ok(table)
}

const A: Grant = Grant { bay: 0, amps: 60 };

const B: Grant = Grant { bay: 1, amps: 40 };

const C: Grant = Grant { bay: 1, amps: 50 };

const D: Grant = Grant { bay: 3, amps: 35 };
// no such bay
const UNFIT: Grant = Grant { bay: 7, amps: 10 };

/// What 3 says to 0, 1 and 2 in the first slot, and in the second.
const FOUR_FIRST: Lies = [
    [Some(A), Some(B), None],
    [None, Some(A), Some(B)],
    [Some(C), Some(D), None],
    [Some(B), Some(D), Some(UNFIT)],
    [Some(D), None, Some(B)],
    [None, Some(B), Some(C)],
];

const FOUR_SECOND: Lies = [
    [Some(A), Some(B), None],
    [Some(D), Some(B), Some(A)],
    [Some(A), Some(D), None],
    [None, Some(UNFIT), Some(D)],
    [Some(B), None, Some(A)],
    [Some(D), Some(B), Some(A)],
];

/// What 0, 1 and 2 say to 3, 4 and 5 in the first slot, and in the second.
const SIX_FIRST: Lies = [
    [Some(A), Some(B), Some(UNFIT)],
    [None, Some(D), Some(B)],
    [Some(D), Some(B), Some(C)],
    [Some(D), Some(C), None],
    [Some(A), Some(C), Some(B)],
    [Some(A), Some(B), Some(C)],
];

const SIX_SECOND: Lies = [
    [Some(B), Some(D), None],
    [Some(C), None, Some(D)],
    [Some(D), Some(B), Some(C)],
    [Some(UNFIT), Some(C), Some(B)],
    [None, Some(B), Some(D)],
    [Some(C), Some(D), Some(B)],
];

/// Four controllers, of which 3 lies.
fn four(rt: &HostRuntime) -> anyhow::Result<()> {
    let table = seal(4, &[0b0111, 0b1011, 0b1101, 0b1110])?;
    println!(rt;
        "Slots of a yard of four, of which any one may fail. 3 lies: it tells each of the others something else."
    )?;
    println!(rt;
        "They propose two grants, and close with one. During the slot each is offered 1/50 for the next."
    )?;
    let mut yard = Yard {
        size: 4,
        liars: "3 tells",
        good: [
            Good::open(&table, 0, A)?,
            Good::open(&table, 1, A)?,
            Good::open(&table, 2, B)?,
        ],
    };
    yard.offer(C)?;
    yard.slot(rt, &FOUR_FIRST)?;
    println!(rt;
        "Now all three propose 1/50, so that is the value, whatever 3 says; it would pass the feed."
    )?;
    yard.slot(rt, &FOUR_SECOND)?;
    yard.show_agreed(rt)
}

/// Six controllers, of which 0, 1 and 2 lie together.
fn six(rt: &HostRuntime) -> anyhow::Result<()> {
    let table = seal(6, &[0b111000, 0b110111, 0b101111, 0b011111])?;
    println!(rt;
        "Slots of the yard of six. The whole cabinet lies, and 0 leads first. Where 3, 4 and 5 propose different"
    )?;
    println!(rt; "grants, the liars may bring in one of their own, but the same to all.")?;
    let mut yard = Yard {
        size: 6,
        liars: "0 1 2 tell",
        good: [
            Good::open(&table, 3, A)?,
            Good::open(&table, 4, A)?,
            Good::open(&table, 5, B)?,
        ],
    };
    yard.offer(A)?;
    yard.slot(rt, &SIX_FIRST)?;
    println!(rt; "Now all three propose 0/60.")?;
    yard.slot(rt, &SIX_SECOND)?;
    yard.show_agreed(rt)
}

pub fn show(rt: &HostRuntime) -> anyhow::Result<()> {
    four(rt)?;
    println!(rt)?;
    six(rt)
}
