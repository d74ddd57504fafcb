//! The plan book. `plan_duty` has its calls.
ghost use Rattle.std.specs.Prelude.{◌≤◌};

/// The plan in force, out of those from 1 to the highest, itself from 1 to 9,999; 0 where none is yet.
#[derive(Drop)]
pub struct PlanBook {
    pub(crate) highest: u32,
    pub(crate) in_force: u32,
    ghost some: { 1 ≤ highest },
    ghost few: { highest ≤ 9999 },
    ghost known: { in_force ≤ highest },
}
