//! Whether an automaton is a controller for a formula.

ghost use Rattle.std.specs.Prelude.{◌≡◌, ℕ, List, IfErr, IfOk};
ghost use Rattle.omega_hoa.specs.Alone.{IsAutomatonText};
ghost use Rattle.omega_hoa_automaton.specs.Automaton.{Description};
ghost use Rattle.omega_answers_formula.specs.Formula.{IsFormulaOfText};
ghost use Rattle.omega_synth_formula.specs.Refusing.{IsFormulaJudgeRefusal};
ghost use Rattle.omega_answers_synth.specs.FormulaController.{IsFormulaControllerAnswer};
ghost use Rattle.omega_answers_synth.specs.FormulaController.{IsFormulaControllerRefused};
ghost use Rattle.omega_answers_synth.specs.FormulaController.{IsFormulaControllerVerdict, judgement_told};
ghost use Rattle.omega_answers_synth.specs.FormulaController.{IsNamedControllerVerdict, RefusesFormulaController};
ghost use Rattle.omega_answers_synth.specs.FormulaController.{RefusesNamedController};
ghost use Rattle.omega_answers_synth.specs.Outputs.{AreOutputs, lists_of, output_numbers};

use crate::about::counter_reported;
use crate::given_names::GivenNames;
use crate::outputs::{check_outputs, outputs_of};
use crate::reason::judgement_answer;
use omega_hoa::read_one;
use omega_hoa_automaton::{Automaton, Refusal};
use omega_io::{Exit, Refused, Which};
use omega_ltl_formula::Formula;
use omega_ltl_text::read_formula;
use omega_synth_check::{Judgement, numbers_named};
use omega_synth_formula::{FormulaJudgement, judge_for_formula};
use omega_text::ByteString;
use std::alloc::Global;

/// Decides whether the automaton of `text` is a controller for the formula of `formula`: it has a start, each state
/// that it reaches has for each letter of the environment an edge that answers it, and each word that it accepts
/// satisfies the formula. Returns `yes` with [Exit::Done], else `no` with [Exit::No].
///
/// The system controls the propositions whose names `names` gives to it, and the environment all others. With
/// [GivenNames::outs] alone the system controls these, and with [GivenNames::ins] alone all other names of the formula.
/// The automaton need not have all names of the formula, and may have others, which the environment controls.
///
/// If `explain` is set, lines follow `no`. Without a start there is one, `no start`. For a letter without an answer
/// they are `state` with the number of the state, `letter` with what holds of each proposition of the environment, as
/// in the words of `empty`, and `stem` with the edges that lead there from a start. For a word that does not satisfy
/// the formula they are an accepting lasso of the automaton, as `empty` writes it, and its word.
///
/// `formula` is the text that a refusal calls the file, and `text` the one that it calls the input. Fails with the
/// refusal of `formula`, or else with the [Refusal::Text] or [Refusal::Automaton] of `text`. Or else fails with
/// [TaskFault::Controllable] about `formula` if `names` does not part its names, as `decide_formula_realizability` says
/// it. Or else fails so about `text` if its item `controllable-AP:` (extended HOA) is refused, or if it has the item
/// and that does not list exactly its propositions that the system controls. Or else fails as `judge_for_formula` does:
/// [TaskFault::UniversalBranch] and [TaskFault::NotParity] are about `text`, and [TaskFault::TooLarge] and
/// [TaskFault::TooManyPropositions] about neither text.
pub fn verify_formula_controller(
    alloc: Global,
    formula: &[u8],
    names: GivenNames<'_>,
    text: &[u8],
    explain: bool,
) -> Result<(Exit, Vec<u8>), Refused>
    ensures answer { IfOk result (λ made. IsFormulaControllerAnswer
        formula.now (lists_of names.entry) text.now explain made.0 made.1.items) }
    ensures refused { IfErr result
        (IsFormulaControllerRefused formula.now (lists_of names.entry) text.now) }
{
    match read_formula(alloc, formula) {
        Ok(read) => verdict_on_text(alloc, &read, names, text, explain),
        Err(refusal) => Err(Refused::of(Which::File, refusal)),
    }
}

/// Returns the exit and the text for a formula and the automaton of `text`. Fails as [verify_formula_controller] does
/// after the formula is read.
fn verdict_on_text(
    alloc: Global,
    formula: &Formula,
    names: GivenNames<'_>,
    text: &[u8],
    explain: bool,
) -> Result<(Exit, Vec<u8>), Refused>
    ensures verdict { IfOk result (λ made. (a : Description) × IsAutomatonText text.now a
        × IsNamedControllerVerdict formula.now (lists_of names.entry) a explain made.0 made.1.items) }
    ensures refused { IfErr result (λ refused. (source : List ℕ) → IsFormulaOfText source formula.now
        → IsFormulaControllerRefused source (lists_of names.entry) text.now refused) }
{
    match read_one(alloc, text) {
        Ok(automaton) => named_verdict(alloc, formula, names, &automaton, explain),
        Err(refusal) => Err(Refused::of(Which::Input, refusal)),
    }
}

/// Returns the exit and the text for a formula, the names that are given and an automaton. Fails as
/// [verify_formula_controller] does after both texts are read.
fn named_verdict(
    alloc: Global,
    formula: &Formula,
    names: GivenNames<'_>,
    controller: &Automaton,
    explain: bool,
) -> Result<(Exit, Vec<u8>), Refused>
    ensures verdict { IfOk result (λ made. IsNamedControllerVerdict
        formula.now (lists_of names.entry) controller.now explain made.0 made.1.items) }
    ensures refused { IfErr result
        (RefusesNamedController formula.now (lists_of names.entry) controller.now) }
{
    match outputs_of(alloc, formula, names) {
        Ok(outs) => formula_verdict(alloc, formula, outs.as_slice(), controller, explain),
        Err(unparted) => Err(Refused::of(Which::File, unparted)),
    }
}

/// Returns the exit and the text for a formula, its outputs and an automaton. Fails as [verify_formula_controller] does
/// after the outputs are known.
fn formula_verdict(
    alloc: Global,
    formula: &Formula,
    outs: &[ByteString],
    controller: &Automaton,
    explain: bool,
) -> Result<(Exit, Vec<u8>), Refused>
    ensures verdict { IfOk result (λ made.
        IsFormulaControllerVerdict formula.now outs.now controller.now explain made.0 made.1.items) }
    ensures refused { IfErr result (RefusesFormulaController formula.now outs.now controller.now) }
{
    check_outputs(alloc, outs, controller)?;
    match formula_reply(alloc, formula, outs, controller, explain) {
        Ok(made) => Ok(made),
        Err(refusal) => Err(counter_reported(refusal)),
    }
}

/// Returns the exit and the text for a formula, outputs on which the automaton agrees, and the automaton. Fails as
/// `judge_for_formula` does.
fn formula_reply(
    alloc: Global,
    formula: &Formula,
    outs: &[ByteString],
    controller: &Automaton,
    explain: bool,
) -> Result<(Exit, Vec<u8>), Refusal>
    requires { AreOutputs outs.now controller.now }
    ensures verdict { IfOk result (λ made.
        IsFormulaControllerVerdict formula.now outs.now controller.now explain made.0 made.1.items) }
    ensures refused { IfErr result (IsFormulaJudgeRefusal formula.now controller.now
        (output_numbers controller.now outs.now)) }
{
    controller.keeps_limits();
    let controlled = numbers_named(alloc, controller.propositions(), outs)?;
    let numbers = controlled.as_slice();
    let judgement = judge_for_formula(alloc, formula, controller, numbers)?;
    let told = judgement_told(judgement);
    let answer = judgement_answer(alloc, controller, numbers, &told, explain)?;
    answer.reply(alloc)
}

/// Returns the judgement for a specification that is told as `judgement` is.
fn judgement_told(judgement: FormulaJudgement) -> Judgement
    ensures { result ≡ judgement_told judgement }
{
    match judgement {
        FormulaJudgement::Controls => Judgement::Controls,
        FormulaJudgement::NoStart => Judgement::NoStart,
        FormulaJudgement::Unanswered(lack) => Judgement::Unanswered(lack),
        FormulaJudgement::NotSatisfied(example) => Judgement::NotAccepted(example),
    }
}
