//! Sealing a draft, with the whole promise of agreement on its contract.

#![tactic(auto)]

ghost use Rattle.std.specs.Prelude.{[], ◌∷◌};
ghost use Rattle.cores.specs.Leads.{table};
ghost use Rattle.rules.specs.Own.{own_rule};
ghost use Rattle.rules.specs.Rules.{Rule};
ghost use Rattle.agreement.specs.Promise.{Promise};

use duty::Duty;
use structure::Structure;
use survivor::{Draft, DraftRefusal, Table};

/// Any round rule at all, by its meaning.
pub trait RoundRule {
    ghost rule: { Rule };
}

/// A rule to name in the call: our own rounds, for a yard of one.
pub struct OwnRounds;

impl RoundRule for OwnRounds {
    ghost rule = { own_rule (table 1 (1 ∷ [])) };
}

/// Seals a draft into a table, as `Draft::seal` does. Its contract is the promise whole: over every round rule, every structure and every
/// duty.
pub fn seal_agreed<R: RoundRule, S: Structure, D: Duty>(
    draft: &Draft,
    table: &mut Table,
) -> Result<(), DraftRefusal>
    ensures { Promise R.RoundRule.rule S.Structure D.Duty D.Value.Same draft.now table.old result table.new }
{
    draft.seal(table)
}
