//! Whether an automaton that was found is a controller or a counter-strategy for a formula, as the judges say.

ghost use Rattle.std.specs.Prelude.{◌≡◌, ◌⊎◌, IfErr, OnOk};
ghost use Rattle.omega_text.specs.Cases.{IsMemory};
ghost use Rattle.omega_text.specs.declared.refusal.Refusal.TheVariants.{Task};
ghost use Rattle.omega_text.specs.declared.refusal.task.TaskFault.TheVariants.{Unjudged};
ghost use Rattle.omega_synth_formula.specs.declared.counter.FormulaCounterJudgement.TheVariants.{Beats};
ghost use Rattle.omega_synth_formula.specs.declared.judgement.FormulaJudgement.TheVariants.{Controls};
ghost use Rattle.omega_answers_synth.specs.FormulaRefusing.{IsUnjudgedWinner};
ghost use Rattle.omega_answers_synth.specs.FormulaWinner.{IsJudgedController, IsJudgedCounterStrategy};
ghost use Rattle.omega_answers_synth.specs.FormulaWinner.{IsJudgedWinner};
ghost use Rattle.omega_answers_synth.specs.Outputs.{AreNotOutputs, AreOutputs};
ghost use Rattle.omega_io.specs.declared.exit.Exit.TheVariants.{Done, No};

use crate::outputs::check_outputs;
use crate::own_faults::{unjudged_for_form, unread_for_size};
use omega_hoa_automaton::{Automaton, Refusal};
use omega_io::Exit;
use omega_ltl_formula::Formula;
use omega_synth_check::numbers_named;
use omega_synth_formula::{
    FormulaCounterJudgement, FormulaJudgement, judge_counter_strategy_for_formula,
    judge_for_formula,
};
use omega_text::{ByteString, TaskFault};
use std::alloc::Global;

/// Checks that `winner` is judged to be a controller for `formula`, where `exit` is [Exit::Done], or else to be a
/// counter-strategy. The system controls `outs`.
///
/// Fails with [TaskFault::Unjudged] if its item `controllable-AP:` says otherwise, or if the judge does, or refuses it
/// for its form. Fails as the judge does otherwise.
pub(crate) fn check_winner(
    alloc: Global,
    formula: &Formula,
    outs: &[ByteString],
    exit: Exit,
    winner: &Automaton,
) -> Result<(), Refusal>
    ensures judged { OnOk result (IsJudgedWinner formula.now outs.now exit winner.now) }
    ensures refused { IfErr result (IsUnjudgedWinner formula.now outs.now exit winner.now) }
{
    match exit {
        Exit::Done => check_controller(alloc, formula, outs, winner),
        Exit::No => check_counter_strategy(alloc, formula, outs, winner),
    }
}

/// Checks that `controller` is judged to be a controller for `formula`. Fails as [check_winner] does.
fn check_controller(
    alloc: Global,
    formula: &Formula,
    outs: &[ByteString],
    controller: &Automaton,
) -> Result<(), Refusal>
    ensures judged { OnOk result (IsJudgedController formula.now outs.now controller.now) }
    ensures refused { IfErr result (IsUnjudgedWinner formula.now outs.now Done controller.now) }
{
    check_own_outputs(alloc, outs, controller)?;
    controller.keeps_limits();
    let controlled = numbers_named(alloc, controller.propositions(), outs)?;
    let numbers = controlled.as_slice();
    match judge_for_formula(alloc, formula, controller, numbers) {
        Ok(judgement) => check_control(&judgement),
        Err(refusal) => Err(unjudged_for_form(refusal)),
    }
}

/// Checks that `strategy` is judged to be a counter-strategy for `formula`. Fails as [check_winner] does.
fn check_counter_strategy(
    alloc: Global,
    formula: &Formula,
    outs: &[ByteString],
    strategy: &Automaton,
) -> Result<(), Refusal>
    ensures judged { OnOk result (IsJudgedCounterStrategy formula.now outs.now strategy.now) }
    ensures refused { IfErr result (IsUnjudgedWinner formula.now outs.now No strategy.now) }
{
    check_own_outputs(alloc, outs, strategy)?;
    match judge_counter_strategy_for_formula(alloc, formula, strategy, outs) {
        Ok(judgement) => check_beating(&judgement),
        Err(refusal) => Err(unjudged_for_form(refusal)),
    }
}

/// Checks that the item of an automaton that was found is that of `outs`. Fails with [TaskFault::Unjudged] if not.
fn check_own_outputs(
    alloc: Global,
    outs: &[ByteString],
    automaton: &Automaton,
) -> Result<(), Refusal>
    ensures outputs { OnOk result (AreOutputs outs.now automaton.now) }
    ensures refused { IfErr result (λ refusal. IsMemory refusal
        ⊎ (AreNotOutputs outs.now automaton.now × (refusal ≡ Task Unjudged))) }
{
    match check_outputs(alloc, outs, automaton) {
        Ok(()) => Ok(()),
        Err(refused) => Err(unread_for_size(refused.refusal)),
    }
}

/// Fails with [TaskFault::Unjudged], unless the judgement is that of a controller.
fn check_control(judgement: &FormulaJudgement) -> Result<(), Refusal>
    ensures controls { OnOk result (judgement.now ≡ Controls) }
    ensures otherwise { IfErr result
        (λ refusal. (refusal ≡ Task Unjudged) × ¬ (judgement.now ≡ Controls)) }
{
    match judgement {
        FormulaJudgement::Controls => Ok(()),
        FormulaJudgement::NoStart => Err(Refusal::Task(TaskFault::Unjudged)),
        FormulaJudgement::Unanswered(_) => Err(Refusal::Task(TaskFault::Unjudged)),
        FormulaJudgement::NotSatisfied(_) => Err(Refusal::Task(TaskFault::Unjudged)),
    }
}

/// Fails with [TaskFault::Unjudged], unless the judgement is that of a counter-strategy.
fn check_beating(judgement: &FormulaCounterJudgement) -> Result<(), Refusal>
    ensures beats { OnOk result (judgement.now ≡ Beats) }
    ensures otherwise { IfErr result
        (λ refusal. (refusal ≡ Task Unjudged) × ¬ (judgement.now ≡ Beats)) }
{
    match judgement {
        FormulaCounterJudgement::Beats => Ok(()),
        FormulaCounterJudgement::NoStart => Err(Refusal::Task(TaskFault::Unjudged)),
        FormulaCounterJudgement::NoLetter(_) => Err(Refusal::Task(TaskFault::Unjudged)),
        FormulaCounterJudgement::Satisfying(_) => Err(Refusal::Task(TaskFault::Unjudged)),
    }
}
