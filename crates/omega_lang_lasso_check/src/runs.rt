//! The run of each mark of a cycle: how many edges at the front all have it.
ghost use Rattle.std.specs.Prelude.{◌≡◌, ◌<◌, ◌^◌, map, nat_eq, All, IfOk, IsOkUnless, OnOk};
ghost use Rattle.std.specs.Option.{unwrap_or};
ghost use Rattle.indexmap.specs.IndexMap.{get};
ghost use Rattle.omega_lang_runs.specs.Lasso.{marks_at};
ghost use Rattle.omega_lang_lasso_check.specs.Conditions.{IsNumber};
ghost use Rattle.omega_lang_lasso_check.specs.private.EdgeTable.{IsTable, automaton_of};
ghost use Rattle.omega_lang_lasso_check.specs.private.Runs.{AddsMarks, AreRuns, GoesOn};

use crate::edge_table::EdgeTable;
use indexmap::IndexMap;
use omega_hoa_automaton::Refusal;
use std::alloc::Global;

/// Returns, for each mark of an edge of `cycle`, how many edges at the front of the cycle all have it. Linear in the
/// marks.
pub(crate) fn runs(
    alloc: Global,
    table: &EdgeTable<'_>,
    cycle: &[u32],
) -> Result<IndexMap<u32, usize>, Refusal>
    requires places { IsTable table.now }
    requires there { All (IsNumber (automaton_of table.now)) cycle.now }
    ensures runs { IfOk result (λ runs.
        AreRuns (map (marks_at (automaton_of table.now)) cycle.now) (get nat_eq runs)) }
    ensures memory { IsOkUnless result Refusal.Memory }
{
    let mut runs = IndexMap::new(alloc);
    for at in 0..cycle.len() {
        let found = table.find(cycle[at]);
        add_marks(&mut runs, at, found.source.marks.as_slice())?;
        add_marks(&mut runs, at, found.edge.marks())?;
    }
    Ok(runs)
}

/// Adds `marks` of the edge at index `at`.
fn add_marks(runs: &mut IndexMap<u32, usize>, at: usize, marks: &[u32]) -> Result<(), Refusal>
    requires { at < 2 ^ 63 }
    ensures runs { OnOk result (AddsMarks at marks.now (get nat_eq runs.old) (get nat_eq runs.new)) }
    ensures memory { IsOkUnless result Refusal.Memory }
{
    for mark in marks {
        add_mark(runs, at, *mark)?;
    }
    Ok(())
}

/// Adds `mark` of the edge at index `at`.
fn add_mark(runs: &mut IndexMap<u32, usize>, at: usize, mark: u32) -> Result<(), Refusal>
    requires { at < 2 ^ 63 }
    ensures run { OnOk result (GoesOn at mark (get nat_eq runs.old) (get nat_eq runs.new)) }
    ensures memory { IsOkUnless result Refusal.Memory }
{
    let before = run_of(runs, mark);
    let run = if before == at { at + 1 } else { before };
    runs.insert(mark, run)?;
    Ok(())
}

/// Returns the run of `mark`, or 0 if no edge has it.
pub(crate) fn run_of(runs: &IndexMap<u32, usize>, mark: u32) -> usize
    ensures { result ≡ unwrap_or (get nat_eq runs.now mark) 0 }
{
    runs.get(&mark).copied().unwrap_or(0)
}
