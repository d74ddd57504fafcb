//! Survivor sets written down a second time, with no thought for speed, and with a flag for each controller: a set of numbers or
//! bits would be the idea of the code that is tried.

use std::alloc::{AllocError, Global};
use std::array;
use survivor::DraftRefusal;

/// A flag for each of 16 controllers.
pub type Flags = [bool; 16];

pub fn flags(group: u16) -> Flags {
    array::from_fn(|i| (group >> i) % 2 == 1)
}

/// Whether every controller of `part` belongs to `group`.
pub fn contains(group: &Flags, part: &Flags) -> bool {
    group.iter().zip(part).all(|(whole, one)| *whole || !*one)
}

fn meet(a: &Flags, b: &Flags) -> bool {
    a.iter().zip(b).any(|(x, y)| *x && *y)
}

pub fn share(a: &Flags, b: &Flags, c: &Flags) -> bool {
    a.iter().zip(b).zip(c).any(|((x, y), z)| *x && *y && *z)
}

/// Why sets cannot be sealed.
#[derive(Clone, Copy, PartialEq, Eq)]
pub enum Unsealed {
    NoSet,
    /// Some three of them share no controller.
    NoneShared,
}

#[derive(Drop)]
pub struct Naive {
    n: u32,
    sets: Vec<Flags>,
}

impl Naive {
    pub fn new(heap: Global, n: u32) -> Naive {
        Naive {
            n,
            sets: Vec::new(heap),
        }
    }

    fn outside(&self, set: &Flags) -> bool {
        set.iter().skip(self.n as usize).any(|flag| *flag)
    }

    /// What is answered to a set that is to be added.
    fn answer(&self, set: &Flags) -> Result<(), DraftRefusal> {
        if !set.contains(&true) || self.outside(set) {
            return Err(DraftRefusal::EmptyOrOutside);
        }
        if self.sets.len() >= 64 {
            return Err(DraftRefusal::Full);
        }
        match self
            .sets
            .iter()
            .position(|old| contains(old, set) || contains(set, old))
        {
            Some(before) => Err(DraftRefusal::Comparable(before + 1)),
            None => Ok(()),
        }
    }

    pub fn add(&mut self, group: u16) -> Result<Result<(), DraftRefusal>, AllocError> {
        let set = flags(group);
        let answer = self.answer(&set);
        if answer.is_ok() {
            self.sets.push(set)?;
        }
        Ok(answer)
    }

    /// The leads of the sets, where they can be sealed.
    pub fn seal(&self) -> Result<Flags, Unsealed> {
        let sets = self.sets.as_slice();
        if sets.is_empty() {
            return Err(Unsealed::NoSet);
        }
        if sets.iter().all(|a| sets.iter().all(|b| sets.iter().all(|c| share(a, b, c)))) {
            Ok(self.leads())
        } else {
            Err(Unsealed::NoneShared)
        }
    }

    /// The sets at three places, from 1, have no controller in common.
    pub fn none_shared(&self, p: usize, q: usize, r: usize) -> bool {
        match (self.at(p), self.at(q), self.at(r)) {
            (Some(a), Some(b), Some(c)) => !share(a, b, c),
            _ => false,
        }
    }

    fn at(&self, place: usize) -> Option<&Flags> {
        self.sets.get(place.checked_sub(1)?)
    }

    fn meets_all(&self, group: &Flags) -> bool {
        self.sets.iter().all(|set| meet(set, group))
    }

    pub fn enough(&self, group: u16) -> bool {
        self.enough_flags(&flags(group))
    }

    pub fn enough_flags(&self, group: &Flags) -> bool {
        self.sets.iter().any(|set| contains(group, set))
    }

    /// The first group, by size and then by number, that meets every set.
    pub fn leads(&self) -> Flags {
        (0..17)
            .find_map(|size| {
                (0..=u16::MAX)
                    .filter(|number| number.count_ones() == size)
                    .map(flags)
                    .find(|group| self.meets_all(group))
            })
            .unwrap_or([false; 16])
    }

    /// Whether a group is a core: it meets every set, and no longer so without any one of its controllers.
    fn is_core(&self, number: u16) -> bool {
        self.meets_all(&flags(number))
            && (0u32..16).all(|i| {
                (number >> i) % 2 == 0 || !self.meets_all(&flags(number ^ (1 << i)))
            })
    }

    /// Whether each split of the controllers into three groups has one that contains a core.
    pub fn splits_keep_a_core(&self, heap: Global) -> Result<bool, AllocError> {
        let groups = 1u16 << self.n.min(10);
        let cores: Vec<Flags> = (0..groups)
            .filter(|number| self.is_core(*number))
            .map(flags)
            .collect(heap)?;
        let split_keeps = |x: u16, y: u16| holds_core(
            cores.as_slice(),
            [x, y, (groups - 1) & !(x | y)],
        );
        Ok((0..groups).all(|x| (0..groups).all(|y| x & y != 0 || split_keeps(x, y))))
    }
}

/// Whether one of the groups contains a core.
fn holds_core(cores: &[Flags], groups: [u16; 3]) -> bool {
    groups
        .map(flags)
        .iter()
        .any(|group| cores.iter().any(|core| contains(group, core)))
}
