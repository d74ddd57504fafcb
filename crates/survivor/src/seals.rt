ghost use Rattle.std.specs.Prelude.{◌≡◌, ◌<◌, ◌≤◌, ◌↔◌, [], ◌∷◌, length, take, IsOk, MatchOption};
ghost use Rattle.structure.specs.Groups.{members};
ghost use Rattle.cores.specs.Leads.{leading_core, meets_all, Leading};
ghost use Rattle.cores.specs.Sharing.{ThreesShare, SplitsKeepACore, WordingsAgree};
ghost use Rattle.survivor.specs.Drafts.{size_of, sets_of};
ghost use Rattle.survivor.specs.Seals.{draft_of, leads_of, meaning_of, refused_with, sealing, NothingShared, Reason, Writes};
ghost use Rattle.survivor.specs.Sealing.{wiring, sharing_threes};
ghost use Rattle.cores.proofs.Tables.{table_lawful};

use crate::refusals::DraftRefusal;
use crate::tables::{Draft, Table};
use structure::{Group, Structure, belongs, contains, everyone};

/// The members of a group among the first `size` controllers, by rising number, and how many there are. (An array and a count,
/// since a table, which keeps them, is `Copy` and stays so. To zip the places with the members would leave them to be counted.)
fn list_members(size: u8, group: Group) -> ([u8; 16], usize)
    requires { size ≤ 16 }
    ensures { (take result.1 result.0 ≡ members size group) × (result.1 ≤ 16) }
{
    let mut list = [0; 16];
    let mut count = 0;
    for i in 0..size {
        if belongs(i, group) {
            list[count] = i;
            count += 1;
        }
    }
    (list, count)
}

impl Draft {
    /// The places of three sets that share no controller. (`find_map` within `find_map` twice over reads no plainer.)
    fn none_shared(&self) -> Option<(usize, usize, usize)>
        ensures { MatchOption result (ThreesShare (size_of self.now) (sets_of self.now)) (λ t. NothingShared (size_of self.now) (sets_of self.now) t.0 t.1 t.2) }
    {
        let sets = self.sets();
        for (i, a) in sets.iter().enumerate() {
            for (j, b) in sets.iter().enumerate() {
                for (k, c) in sets.iter().enumerate() {
                    if *a & *b & *c == 0 {
                        return Some((i + 1, j + 1, k + 1));
                    }
                }
            }
        }
        None
    }

    /// Whether a group has a controller in common with every set.
    fn meets_all(&self, group: Group) -> bool
        ensures { result ≡ meets_all (size_of self.now) (sets_of self.now) group }
    {
        self.sets().iter().all(|set| *set & group != 0)
    }

    /// The core of least size, among equals the one with the least number: one pass over the groups of the yard. (`min_by_key` over
    /// the groups that meet all sets would ask that of each group, where only smaller ones need be asked; a `fold` would carry the same two.)
    fn leading_core(&self) -> Group
        requires { 0 < length (sets_of self.now) }
        ensures { result ≡ leading_core (size_of self.now) (sets_of self.now) }
    {
        let all = everyone(self.size);
        let mut best = all;
        let mut fewest = all.count_ones();
        for group in 1..all {
            let ones = group.count_ones();
            if ones < fewest && self.meets_all(group) {
                best = group;
                fewest = ones;
            }
        }
        best
    }

    /// Seals the draft into a table that the caller holds, which is written whole: a host gives the memory of its tables itself.
    ///
    /// Refused, in this order: 13, the draft has no set; 14, three of its sets share no controller. A refused draft leaves
    /// the table as it was.
    pub fn seal(&self, table: &mut Table) -> Result<(), DraftRefusal>
        ensures answer { refused_with result ≡ sealing (size_of self.now) (sets_of self.now) }
        ensures reason { Reason (size_of self.now) (sets_of self.now) result }
        ensures after { Writes self.now table.old result table.new }
        ensures threes { 0 < length (sets_of self.now) → IsOk result ↔ ThreesShare (size_of self.now) (sets_of self.now) }
        ensures splits { 0 < length (sets_of self.now) → IsOk result ↔ SplitsKeepACore (size_of self.now) (sets_of self.now) }
        ensures wordings { WordingsAgree }
    {
        if self.sets().is_empty() {
            return Err(DraftRefusal::NoSet);
        }
        if let Some((p, q, r)) = self.none_shared() {
            return Err(DraftRefusal::NoneShared(p, q, r));
        }
        let (leads, phases) = list_members(self.size, self.leading_core());
        *table = Table {
            draft: *self,
            leads,
            phases,
        };
        Ok(())
    }
}

impl Table {
    /// The table of one controller, whose one set is that controller.
    pub fn new() -> Table
        ensures { (size_of (draft_of result) ≡ 1) × (sets_of (draft_of result) ≡ 1 ∷ []) × (leads_of result ≡ 0 ∷ []) }
    {
        let mut sets = [0; 64];
        sets[0] = 1;
        let draft = Draft {
            size: 1,
            count: 1,
            sets,
        };
        Table {
            draft,
            leads: [0; 16],
            phases: 1,
        }
    }

    /// The sets, in the order of their places.
    pub fn sets(&self) -> &[Group]
        ensures { result.now ≡ sets_of (draft_of self.now) }
    {
        self.draft.sets()
    }

    /// The leads, by rising controller number.
    pub fn leads(&self) -> &[u8]
        ensures answer { result.now ≡ (meaning_of self.now).leads }
        ensures least { Leading (size_of (draft_of self.now)) (sets_of (draft_of self.now)) (leading_core (size_of (draft_of self.now)) (sets_of (draft_of self.now))) }
    {
        &self.leads[0..self.phases]
    }
}

impl Structure for Table {
    ghost meaning = { meaning_of };

    ghost lawful = { λ t. table_lawful (size_of t.draft) (sets_of t.draft) (wiring t.draft t.some) (sharing_threes (size_of t.draft) (sets_of t.draft) t.sharing) };

    fn size(&self) -> u8 {
        self.draft.size
    }

    fn enough(&self, group: Group) -> bool {
        self.sets().iter().any(|set| contains(group, *set))
    }

    fn lead(&self, place: usize) -> Option<u8> {
        self.leads().get(place).copied()
    }
}
