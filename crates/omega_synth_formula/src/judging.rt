//! The judge of controllers: the letters first, and then the words.

ghost use Rattle.std.specs.Prelude.{◌≡◌, IfErr, IfOk, OnOk, false};
ghost use Rattle.omega_hoa_automaton.specs.Branching.{has_universal_branching};
ghost use Rattle.omega_ltl_satisfaction.specs.Satisfaction.{IsSatisfaction};
ghost use Rattle.omega_synth_check.specs.Lacks.{IsLackOf};
ghost use Rattle.omega_synth_check.specs.Refusing.{IsReadable};
ghost use Rattle.omega_synth_formula.specs.Judging.{IsFormulaJudgement};
ghost use Rattle.omega_synth_formula.specs.Refusing.{IsFormulaJudgeRefusal};

use crate::judgement::FormulaJudgement;
use omega_hoa_automaton::{Automaton, Refusal};
use omega_ltl_formula::Formula;
use omega_ltl_satisfaction::{Satisfaction, satisfies};
use omega_synth_check::{Lack, judge_form, lack_of};
use std::alloc::Global;

/// Returns whether `controller` is a controller for `formula`, or why it is none. The system controls those of the
/// controller's propositions whose numbers are in `controlled`, and the environment all others. A proposition of
/// `controller` and one of `formula` that have one name are the same (HOA v1, AP). A name of `formula` that
/// `controller` does not have is open at each index of a word that it accepts.
///
/// The controller need not be deterministic. A number that no proposition has controls nothing. A letter that is not
/// answered comes before a word that does not satisfy the formula.
///
/// Refusals, the first of these steps that has one, whatever the answer is:
///
/// - [TaskFault::UniversalBranch] if a start or an edge of `controller` lists several states.
/// - [TaskFault::NotParity] unless its acceptance has no sets and is `t`, by whatever name.
/// - Those of `lack_of` for `controller`: [TaskFault::TooLarge] and [TaskFault::TooManyPropositions].
/// - Those of `satisfies` for `controller` and `formula`: the same two.
///
/// For each state that is reached up to `2^m` letters are tried for `m` propositions of the environment that its labels
/// mention. Takes the time of `satisfies` too.
pub fn judge_for_formula(
    alloc: Global,
    formula: &Formula,
    controller: &Automaton,
    controlled: &[u32],
) -> Result<FormulaJudgement, Refusal>
    ensures right { IfOk result (IsFormulaJudgement formula.now controller.now controlled.now) }
    ensures given { OnOk result (IsReadable controller.now) }
    ensures refused { IfErr result
        (IsFormulaJudgeRefusal formula.now controller.now controlled.now) }
{
    judge_form(controller)?;
    let lack = lack_of(alloc, controller, controlled)?;
    let satisfaction = satisfies(alloc, controller, formula)?;
    Ok(judgement_of(formula, controller, controlled, lack, satisfaction))
}

/// Returns the judgement on `controller`, by the lack of an answer that was found in it, and by whether its words
/// satisfy the formula.
fn judgement_of(
    _formula: &Formula,
    controller: &Automaton,
    _controlled: &[u32],
    lack: Option<Lack>,
    satisfaction: Satisfaction,
) -> FormulaJudgement
    requires plain { has_universal_branching controller.now ≡ false }
    requires lack { IsLackOf controller.now _controlled.now lack }
    requires satisfied { IsSatisfaction controller.now _formula.now satisfaction }
    ensures { IsFormulaJudgement _formula.now controller.now _controlled.now result }
{
    controller.keeps_limits();
    if controller.starts().len() == 0 {
        return FormulaJudgement::NoStart;
    }
    match lack {
        Some(lack) => FormulaJudgement::Unanswered(lack),
        None => match satisfaction {
            Satisfaction::NotSatisfied(example) => FormulaJudgement::NotSatisfied(example),
            Satisfaction::Satisfied => FormulaJudgement::Controls,
        },
    }
}
