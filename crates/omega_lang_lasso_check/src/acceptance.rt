//! Whether an acceptance formula holds of the marks of a cycle.
ghost use Rattle.std.specs.Prelude.{◌≡◌, nat_eq, not, All, IfOk, IsOkUnless};
ghost use Rattle.indexmap.specs.IndexMap.{get};
ghost use Rattle.omega_lang_lasso_check.specs.Conditions.{IsNumber, cycle_accepts};
ghost use Rattle.omega_lang_lasso_check.specs.private.EdgeTable.{IsTable, automaton_of};
ghost use Rattle.omega_lang_lasso_check.specs.private.Runs.{occurs_by};

use crate::edge_table::EdgeTable;
use crate::runs::{run_of, runs};
use indexmap::IndexMap;
use omega_hoa_acceptance::AtomJudge;
use omega_hoa_automaton::Refusal;
use std::alloc::Global;

/// Whether the marks of `cycle` satisfy the acceptance formula. Linear in the formula and the marks.
pub(crate) fn is_accepted(
    alloc: Global,
    table: &EdgeTable<'_>,
    cycle: &[u32],
) -> Result<bool, Refusal>
    requires places { IsTable table.now }
    requires there { All (IsNumber (automaton_of table.now)) cycle.now }
    ensures accepted { IfOk result
        (λ accepted. accepted ≡ cycle_accepts (automaton_of table.now) cycle.now) }
    ensures memory { IsOkUnless result Refusal.Memory }
{
    let runs = runs(alloc, table, cycle)?;
    let judge = CycleJudge {
        runs: &runs,
        edges: cycle.len(),
    };
    let accepted = table.automaton.acceptance().holds_by(alloc, &judge)?;
    Ok(accepted)
}

/// A cycle with this number of `edges`, and the `runs` of its marks, as a judge of atoms.
#[derive(Clone, Copy)]
struct CycleJudge<'a> {
    runs: &'a IndexMap<u32, usize>,
    edges: usize,
}

impl<'a> AtomJudge for CycleJudge<'a> {
    ghost can_judge = { λ _. Unit {0} };

    ghost infs = { λ j negated set. occurs_by (get nat_eq j.runs.now) j.edges negated set };

    ghost fins = { λ j negated set. not (occurs_by (get nat_eq j.runs.now) j.edges negated set) };

    fn inf_holds(&self, negated: bool, set: u32) -> bool {
        occurs(self.runs, self.edges, negated, set)
    }

    fn fin_holds(&self, negated: bool, set: u32) -> bool {
        !occurs(self.runs, self.edges, negated, set)
    }
}

/// Whether some edge has the mark `set`, or, if `negated`, lacks it.
fn occurs(runs: &IndexMap<u32, usize>, edges: usize, negated: bool, set: u32) -> bool
    ensures { result ≡ occurs_by (get nat_eq runs.now) edges negated set }
{
    if negated {
        run_of(runs, set) != edges
    } else {
        runs.get(&set).is_some()
    }
}
