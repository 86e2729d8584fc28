//! Whether the labels of edges can be true.
ghost use Rattle.std.specs.Prelude.{◌↔◌, All, IfErr, IfNone, IfOk, IfSome, IsTrue};
ghost use Rattle.omega_lang_runs.specs.Judging.{GivesUpOn};
ghost use Rattle.omega_lang_lasso_check.specs.Conditions.{FailsFirst, IsNumber, IsUsableNumber};
ghost use Rattle.omega_lang_lasso_check.specs.Refusing.{IsUndecidedAlong, IsHardEdge};
ghost use Rattle.omega_lang_lasso_check.specs.private.EdgeTable.{IsTable, automaton_of};

use crate::edge_table::EdgeTable;
use omega_hoa_automaton::Refusal;
use omega_lang_runs::JudgedState;
use std::alloc::Global;

/// Returns the first of the edges in `numbers` whose label is never true. Fails with [TaskFault::TooManyPropositions]
/// if a label before that one mentions over `MOST_MENTIONED` propositions and is given up.
pub(crate) fn first_never_true(
    alloc: Global,
    table: &EdgeTable<'_>,
    numbers: &[u32],
) -> Result<Option<u32>, Refusal>
    requires places { IsTable table.now }
    requires there { All (IsNumber (automaton_of table.now)) numbers.now }
    ensures some { IfOk result (λ found.
        IfSome found (FailsFirst (IsUsableNumber (automaton_of table.now)) numbers.now)) }
    ensures none { IfOk result (λ found.
        IfNone found (All (IsUsableNumber (automaton_of table.now)) numbers.now)) }
    ensures refused { IfErr result
        (GivesUpOn (IsUndecidedAlong (automaton_of table.now) numbers.now)) }
{
    for number in numbers {
        if !is_usable(alloc, table, *number)? {
            return Ok(Some(*number));
        }
    }
    Ok(None)
}

/// Whether the edge with this `number` is usable. Fails with [TaskFault::TooManyPropositions] if its label is given up.
fn is_usable(alloc: Global, table: &EdgeTable<'_>, number: u32) -> Result<bool, Refusal>
    requires places { IsTable table.now }
    requires there { IsNumber (automaton_of table.now) number }
    ensures judged { IfOk result
        (λ usable. IsTrue usable ↔ IsUsableNumber (automaton_of table.now) number) }
    ensures refused { IfErr result (GivesUpOn (IsHardEdge (automaton_of table.now) number)) }
{
    let found = table.find(number);
    let judged_state = JudgedState::of(alloc, found.source)?;
    judged_state.is_usable(alloc, &found.edge)
}
