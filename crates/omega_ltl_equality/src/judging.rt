//! An automaton that was found for a formula, judged.

ghost use Rattle.std.specs.Prelude.{◌≡◌, IfErr, IfOk};
ghost use Rattle.omega_ltl_formula.specs.Table.{NumberedFormula, tree_of};
ghost use Rattle.omega_ltl_equality.specs.Equality.{IsFormulaEquality, IsGivenFor};
ghost use Rattle.omega_ltl_equality.specs.Judging.{IsJudged, IsJudgingRefusal};
ghost use Rattle.omega_ltl_equality.specs.private.Choice.{unjudged_for_choice};

use crate::deciding::decide_formula_equality;
use crate::formula_equality::FormulaEquality;
use omega_hoa_automaton::{Automaton, Refusal};
use omega_ltl_formula::Formula;
use omega_text::TaskFault;
use std::alloc::Global;

/// Returns `automaton`, if it is deterministic and accepts exactly the words that satisfy `formula`. So an automaton of
/// `formula` may come from a search of which nothing is proved.
///
/// Fails with [TaskFault::Unjudged] if `automaton` is not deterministic, or is not equal to `formula`, which is a fault
/// of the program that found it. Fails as [decide_formula_equality] does otherwise, and takes its time.
pub fn judged_automaton(
    alloc: Global,
    automaton: Automaton,
    formula: &Formula,
) -> Result<Automaton, Refusal>
    ensures same { IfOk result (λ judged. judged ≡ automaton) }
    ensures judged { IfOk result (IsJudged (tree_of formula.now)) }
    ensures refused { IfErr result (IsJudgingRefusal automaton formula.now) }
{
    match decide_formula_equality(alloc, &automaton, formula) {
        Ok(answer) => judged_by(automaton, answer),
        Err(refusal) => Err(unjudged_for_choice(refusal)),
    }
}

/// Returns `automaton`, if `answer`, which is right of it and some formula, is [FormulaEquality::Equal].
fn judged_by(automaton: Automaton, answer: FormulaEquality) -> Result<Automaton, Refusal>
    ensures same { IfOk result (λ judged. judged ≡ automaton) }
    ensures judged { IfOk result (λ judged. (formula : NumberedFormula)
        → IsFormulaEquality automaton formula answer → IsGivenFor automaton answer
        → IsJudged (tree_of formula) judged) }
    ensures refused { IfErr result (λ refusal. (formula : NumberedFormula)
        → IsFormulaEquality automaton formula answer → IsJudgingRefusal automaton formula refusal) }
{
    match answer {
        FormulaEquality::Equal => Ok(automaton),
        FormulaEquality::Excess(_) => Err(Refusal::Task(TaskFault::Unjudged)),
        FormulaEquality::Missing(_) => Err(Refusal::Task(TaskFault::Unjudged)),
    }
}

/// Returns [TaskFault::Unjudged] in place of a refusal for a choice, and any other refusal as it is.
fn unjudged_for_choice(refusal: Refusal) -> Refusal
    ensures { result ≡ unjudged_for_choice refusal }
{
    match refusal {
        Refusal::Task(TaskFault::NotDeterministic(_) | TaskFault::UniversalBranch) => {
            Refusal::Task(TaskFault::Unjudged)
        }
        _ => refusal,
    }
}
