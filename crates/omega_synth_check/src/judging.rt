//! The judge: the letters first, and then the words.

ghost use Rattle.std.specs.Prelude.{◌≡◌, IfErr, IfOk, OnOk, false};
ghost use Rattle.omega_hoa_automaton.specs.Branching.{has_universal_branching};
ghost use Rattle.omega_lang_inclusion.specs.Containing.{IsContainment};
ghost use Rattle.omega_synth_check.specs.Judging.{IsJudgement};
ghost use Rattle.omega_synth_check.specs.Refusing.{AreJudged, IsJudgeRefusal};
ghost use Rattle.omega_synth_check.specs.Lacks.{IsLackOf};

use crate::judgement::{Judgement, Lack};
use crate::reading::judge_form;
use crate::searching::lack_of;
use omega_hoa_automaton::{Automaton, Refusal};
use omega_lang_inclusion::{Containment, decide_containment};
use std::alloc::Global;

/// Returns whether `controller` is a controller for `specification`, or why it is none. The system controls those of
/// the controller's propositions whose numbers are in `controlled`, and the environment all others. Propositions that
/// have one name are the same in both automata, whatever their numbers are (HOA v1, AP).
///
/// The controller need not be deterministic. A number that no proposition has controls nothing. A letter that is not
/// answered comes before a word that is not accepted.
///
/// Refusals, the first of these steps that has one, whatever the answer is:
///
/// - [TaskFault::UniversalBranch] if a start or an edge of `controller` lists several states.
/// - [TaskFault::NotParity] unless its acceptance has no sets and is `t`, by whatever name.
/// - While its states are met, as they are reached: [TaskFault::TooLarge] if they are over `MOST_STATES`, or if a label
///   is too deep or too large. [TaskFault::TooManyPropositions] if a label is left undecided, or if the labels of a
///   state mention over `MOST_MENTIONED` propositions of the environment.
/// - Those of `contained` for `controller` in `specification`, which is to be deterministic.
///
/// For each state that is reached up to `2^m` letters are tried for `m` propositions of the environment that its labels
/// mention. Takes the time of `contained` too.
pub fn judge(
    alloc: Global,
    specification: &Automaton,
    controller: &Automaton,
    controlled: &[u32],
) -> Result<Judgement, Refusal>
    ensures right { IfOk result (IsJudgement specification.now controller.now controlled.now) }
    ensures given { OnOk result (AreJudged specification.now controller.now) }
    ensures refused { IfErr result (IsJudgeRefusal specification.now controller.now controlled.now) }
{
    judge_form(controller)?;
    let lack = lack_of(alloc, controller, controlled)?;
    let containment = decide_containment(alloc, controller, specification)?;
    Ok(judgement_of(specification, controller, controlled, lack, containment))
}

/// Returns the judgement on `controller`, by the lack of an answer that was found in it, and by its containment in the
/// specification.
fn judgement_of(
    _specification: &Automaton,
    controller: &Automaton,
    _controlled: &[u32],
    lack: Option<Lack>,
    containment: Containment,
) -> Judgement
    requires plain { has_universal_branching controller.now ≡ false }
    requires lack { IsLackOf controller.now _controlled.now lack }
    requires contained { IsContainment controller.now _specification.now containment }
    ensures { IsJudgement _specification.now controller.now _controlled.now result }
{
    controller.keeps_limits();
    if controller.starts().len() == 0 {
        return Judgement::NoStart;
    }
    match lack {
        Some(lack) => Judgement::Unanswered(lack),
        None => match containment {
            Containment::NotContained(example) => Judgement::NotAccepted(example),
            Containment::Contained => Judgement::Controls,
        },
    }
}
