ghost use Rattle.std.specs.Prelude.{◌≡◌, ◌++◌, ◌↔◌, false, IfErr, IfNone};
ghost use Rattle.std.specs.Prelude.{IfOk, IfSome, IsNone, IsOkUnless, OnOk};
ghost use Rattle.omega_hoa_automaton.specs.Branching.{has_universal_branching};
ghost use Rattle.omega_lang_runs.specs.Lasso.{IsAcceptingLasso};
ghost use Rattle.omega_lang_lasso_check.specs.Conditions.{HasEdges, IsLassoWalk};
ghost use Rattle.omega_lang_lasso_check.specs.Fault.{IsLassoFault};
ghost use Rattle.omega_lang_lasso_check.specs.Refusing.{IsJudgeRefusal};
ghost use Rattle.omega_lang_lasso_check.specs.private.EdgeTable.{IsTable, automaton_of};
ghost use Rattle.omega_lang_lasso_check.specs.private.Judged.{IsLabelRefusal, IsRefereed};

use crate::acceptance::is_accepted;
use crate::edge_table::EdgeTable;
use crate::fault::LassoFault;
use crate::labels::first_never_true;
use crate::links::{first_apart, first_not_there, is_closed, leaves_start};
use omega_hoa_automaton::{Automaton, Refusal, has_universal_branching};
use omega_lang_runs::edge_places;
use omega_text::TaskFault;
use std::alloc::Global;

/// Returns why a lasso, given by the numbers of the edges of its `stem` and `cycle`, is no accepting lasso of
/// `automaton`; none exactly if it is one. Of several faults this is the first in the order of [LassoFault]. Any
/// numbers may be given.
///
/// Fails with [TaskFault::UniversalBranch] if a start or an edge lists several states. Otherwise fails with
/// [TaskFault::TooManyPropositions] if the label of an edge of the lasso mentions over `MOST_MENTIONED` propositions
/// and `is_satisfiable` gives it up.
///
/// Takes time linear in the automaton and the lasso, and beyond that the time of `is_satisfiable` for each edge of the
/// lasso. Recurses as deep as the acceptance formula.
pub fn judge_lasso(
    alloc: Global,
    automaton: &Automaton,
    stem: &[u32],
    cycle: &[u32],
) -> Result<Option<LassoFault>, Refusal>
    ensures accepting { IfOk result
        (λ found. IsNone found ↔ IsAcceptingLasso automaton.now stem.now cycle.now) }
    ensures fault { IfOk result
        (λ found. IfSome found (IsLassoFault automaton.now stem.now cycle.now)) }
    ensures given { OnOk result (has_universal_branching automaton.now ≡ false) }
    ensures refused { IfErr result (IsJudgeRefusal automaton.now stem.now cycle.now) }
{
    if has_universal_branching(automaton) {
        return Err(Refusal::Task(TaskFault::UniversalBranch));
    }
    let places = edge_places(alloc, automaton)?;
    let table = EdgeTable {
        automaton,
        places: places.as_slice(),
    };
    let found = lasso_fault(alloc, &table, stem, cycle)?;
    Ok(found)
}

/// Returns the fault of a lasso, if it has one. Fails with [TaskFault::TooManyPropositions] if a label is given up.
fn lasso_fault(
    alloc: Global,
    table: &EdgeTable<'_>,
    stem: &[u32],
    cycle: &[u32],
) -> Result<Option<LassoFault>, Refusal>
    requires places { IsTable table.now }
    ensures judged { IfOk result (IsRefereed (automaton_of table.now) stem.now cycle.now) }
    ensures refused { IfErr result (IsLabelRefusal (automaton_of table.now) stem.now cycle.now) }
{
    if cycle.is_empty() {
        return Ok(Some(LassoFault::NoCycle));
    }
    let numbers = concatenation(alloc, stem, cycle)?;
    let edges = numbers.as_slice();
    if let Some(number) = first_not_there(table.automaton, edges) {
        return Ok(Some(LassoFault::NotThere(number)));
    }
    if let Some(fault) = link_fault(alloc, table, stem, cycle)? {
        return Ok(Some(fault));
    }
    if let Some(number) = first_never_true(alloc, table, edges)? {
        return Ok(Some(LassoFault::NeverTrue(number)));
    }
    let accepted = is_accepted(alloc, table, cycle)?;
    Ok(if accepted {
        None
    } else {
        Some(LassoFault::NotAccepted)
    })
}

/// Returns why a lasso does not begin at a start, is not connected or does not close, if that is so.
fn link_fault(
    alloc: Global,
    table: &EdgeTable<'_>,
    stem: &[u32],
    cycle: &[u32],
) -> Result<Option<LassoFault>, Refusal>
    requires places { IsTable table.now }
    requires edges { HasEdges (automaton_of table.now) stem.now cycle.now }
    ensures fault { IfOk result
        (λ found. IfSome found (IsLassoFault (automaton_of table.now) stem.now cycle.now)) }
    ensures none { IfOk result
        (λ found. IfNone found (IsLassoWalk (automaton_of table.now) stem.now cycle.now)) }
    ensures memory { IsOkUnless result Refusal.Memory }
{
    let walk = concatenation(alloc, stem, cycle)?;
    let edges = walk.as_slice();
    if !leaves_start(table, edges[0]) {
        return Ok(Some(LassoFault::NoStart(edges[0])));
    }
    if let Some(number) = first_apart(table, edges) {
        return Ok(Some(LassoFault::Apart(number)));
    }
    Ok(if is_closed(table, cycle) {
        None
    } else {
        Some(LassoFault::NotClosed)
    })
}

/// Returns `first` followed by `second`.
fn concatenation(alloc: Global, first: &[u32], second: &[u32]) -> Result<Vec<u32>, Refusal>
    ensures list { IfOk result (λ list. list.items ≡ first.now ++ second.now) }
    ensures memory { IsOkUnless result Refusal.Memory }
{
    let mut list = Vec::from_slice(alloc, first)?;
    list.extend_from_slice(second)?;
    Ok(list)
}
