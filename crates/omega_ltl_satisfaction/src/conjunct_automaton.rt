//! The automaton of a conjunct.

ghost use Rattle.std.specs.Prelude.{◌<◌, IfErr, IfOk, length};
ghost use Rattle.omega_ltl_satisfaction.specs.private.Meeting.{IsAutomatonOf};
ghost use Rattle.omega_ltl_terms.specs.Adding.{IsLarge};

use crate::conjunct::Conjunct;
use crate::parts::part_of;
use omega_hoa_automaton::Automaton;
use omega_ltl_formula::Formula;
use omega_ltl_translation::translate;
use omega_text::Refusal;
use std::alloc::Global;

/// Returns the automaton of `conjunct`, which is of a node of `formula`. Fails with [TaskFault::TooLarge] if it passes
/// a limit of `translate`.
pub(crate) fn conjunct_automaton(
    alloc: Global,
    formula: &Formula,
    conjunct: Conjunct,
) -> Result<Automaton, Refusal>
    requires { conjunct.node < length formula.now.table.nodes }
    ensures automaton { IfOk result (IsAutomatonOf formula.now.table conjunct) }
    ensures refused { IfErr result IsLarge }
{
    match part_of(alloc, formula, conjunct.node) {
        Ok(part) => translate(alloc, &part, conjunct.negated, &[]),
        Err(refusal) => Err(refusal),
    }
}
