//! Checked rows.
ghost use Rattle.std.specs.Prelude.{◌≤◌, length};

use duty::Duty;
use structure::Structure;

/// A row that was checked: one word from each controller of the structure, for values of the duty's kind.
#[derive(Drop)]
pub struct Row<'a, 'w, S: Structure, D: Duty> {
    pub(crate) structure: &'a S,
    pub(crate) duty: &'a D,
    pub(crate) words: &'w [Option<D::Value>],
    ghost short: { length words.now ≤ 16 },
}
