//! A yard is a set of 1 to 16 controllers that are to agree. A structure says which groups of them are enough to decide, and
//! which controllers lead, one after another, the phases in which they agree.

#![tactic(auto)]

ghost use Rattle.std.specs.Prelude.{◌≡◌, ℕ, ◌^◌, ◌<◌, ◌≤◌, false};
ghost use Rattle.std.specs.List.{slice_get};
ghost use Rattle.structure.specs.Groups.{has, within, everyone, yard_size, NoYardSize};
ghost use Rattle.structure.specs.Meanings.{Meaning, Laws};

/// A group of controllers: bit i stands for controller i.
pub type Group = u16;

/// Whether a yard can have `n` controllers.
pub fn is_yard_size(n: u32) -> bool
    ensures value { result ≡ yard_size n }
    ensures refused { result ≡ false → NoYardSize n }
{
    1 <= n && n <= 16
}

/// Whether a controller belongs to a group.
pub fn belongs(controller: u8, group: Group) -> bool
    ensures { result ≡ has group controller }
{
    controller < 16 && (group >> controller) % 2 == 1
}

/// Whether a group contains another, or equals it.
pub fn contains(group: Group, part: Group) -> bool
    ensures { (n : ℕ) → part < 2 ^ n → result ≡ within n part group }
{
    part & group == part
}

/// The group of all controllers of a yard of `n`, of which 16 count at most.
pub fn everyone(n: u8) -> Group
    ensures yard { n ≤ 16 → result ≡ everyone n }
    ensures beyond { 16 < n → result ≡ everyone 16 }
{
    if n < 16 { (1u16 << n) - 1 } else { u16::MAX }
}

/// A yard of 1 to 16 controllers, by which of its groups are enough and who leads.
///
/// A question alters nothing and is never refused.
pub trait Structure {
    /// What it means: how many controllers, which groups are enough, and the list of leads.
    ghost meaning: { Self → Meaning };

    /// How many controllers the yard has.
    fn size(&self) -> u8
        ensures { result ≡ (meaning self.now).size };

    /// Whether a group is enough. Controllers outside the yard count for nothing.
    fn enough(&self, group: Group) -> bool
        ensures { result ≡ (meaning self.now).enough group };

    /// The lead at a place, from 0, or nothing past the last one.
    fn lead(&self, place: usize) -> Option<u8>
        ensures { result ≡ slice_get (meaning self.now).leads place };

    /// The four laws, which every implementation owes.
    ghost lawful: { (s : Self) → Laws (meaning s) };
}
