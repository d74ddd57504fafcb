//! A draft and a sealed table, each with what always holds of it.
//!
//! The sets are the first `count` of the array, and the leads the first `phases` of theirs: drafts and tables are `Copy` and stay so, which
//! a list with a length of its own is not. What the methods answer is said by `specs/`, which names these types and so
//! cannot be cited here: the methods stand in `drafts` and `seals`. Their clauses name size and sets each time, by `size_of` and
//! `sets_of`: seen by a model, a draft would lose the ghost fields that a table's laws are proved by.
ghost use Rattle.std.specs.Prelude.{◌≡◌, ◌<◌, ◌≤◌, length, take};
ghost use Rattle.cores.specs.Leads.{table};
ghost use Rattle.cores.specs.Sharing.{ThreesShare, NoneEmpty, Inside};
ghost use Rattle.survivor.specs.Sets.{Incomparable};

use structure::Group;

/// The survivor sets of a yard as they are gathered: none contains or equals another.
#[derive(Clone, Copy)]
pub struct Draft {
    pub(crate) size: u8,
    pub(crate) count: usize,
    pub(crate) sets: [Group; 64],
    ghost low: { 1 ≤ size },
    ghost high: { size ≤ 16 },
    ghost few: { count ≤ 64 },
    ghost peopled: { NoneEmpty (take count sets) },
    ghost inside: { Inside size (take count sets) },
    ghost unordered: { Incomparable size (take count sets) },
}

/// A sealed table: a draft with a set or more, of which every three share a controller, and its leads.
#[derive(Clone, Copy)]
pub struct Table {
    pub(crate) draft: Draft,
    pub(crate) leads: [u8; 16],
    // how many leads there are: one for each phase of a slot
    pub(crate) phases: usize,
    ghost fit: { phases ≤ 16 },
    ghost some: { 0 < length (take draft.count draft.sets) },
    // truncated, since a ghost field may have one proof at most
    ghost sharing: { ∥ ThreesShare draft.size (take draft.count draft.sets) ∥₁ },
    ghost led: { take phases leads ≡ (table draft.size (take draft.count draft.sets)).leads },
}
