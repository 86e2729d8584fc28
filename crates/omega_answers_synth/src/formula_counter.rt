//! Whether an automaton is a counter-strategy for a formula.

ghost use Rattle.std.specs.Prelude.{◌≡◌, ◌++◌, ℕ, List, IfErr, IfOk, IsOkUnless, OnOk};
ghost use Rattle.omega_hoa.specs.Alone.{IsAutomatonText};
ghost use Rattle.omega_hoa_automaton.specs.Automaton.{Description};
ghost use Rattle.omega_io.specs.Answer.{explained};
ghost use Rattle.omega_answers_formula.specs.Formula.{IsFormulaOfText};
ghost use Rattle.omega_synth_formula.specs.CounterRefusing.{IsFormulaCounterRefusal};
ghost use Rattle.omega_answers_synth.specs.FormulaCounter.{IsFormulaCounterAnswer};
ghost use Rattle.omega_answers_synth.specs.FormulaCounter.{IsFormulaCounterRefused};
ghost use Rattle.omega_answers_synth.specs.FormulaCounter.{IsFormulaCounterVerdict, RefusesFormulaCounter};
ghost use Rattle.omega_answers_synth.specs.FormulaCounter.{IsNamedCounterVerdict, RefusesNamedCounter};
ghost use Rattle.omega_answers_synth.specs.FormulaCounter.{formula_counter_answer, state_lines};
ghost use Rattle.omega_answers_synth.specs.Outputs.{AreOutputs, lists_of};

use crate::about::counter_reported;
use crate::given_names::GivenNames;
use crate::outputs::{check_outputs, outputs_of};
use crate::reason::start_lines;
use omega_answers::Answer;
use omega_answers_inclusion::counterexample_lines;
use omega_hoa::read_one;
use omega_hoa_automaton::{Automaton, Refusal};
use omega_io::{Exit, Refused, Which};
use omega_lang_lasso_text::append_numbers;
use omega_ltl_formula::Formula;
use omega_ltl_text::read_formula;
use omega_synth_formula::{
    FormulaCounterJudgement, LetterlessState, judge_counter_strategy_for_formula,
};
use omega_text::{ByteString, write_number};
use std::alloc::Global;

/// Decides whether the automaton of `text` is a counter-strategy for the formula of `formula`: a strategy of the
/// environment against which no system satisfies it. It is to be deterministic. Returns `yes` with [Exit::Done], else
/// `no` with [Exit::No].
///
/// The system controls the propositions whose names `names` gives to it, and the environment all others, as for
/// `verify_formula_controller`. The automaton need not have all names of the formula, and may have others.
///
/// If `explain` is set, lines follow `no`. Without a start there is one, `no start`. For a state in which the
/// environment has no letter they are `state` with its number, and `stem` with the edges that lead there from a start.
/// For a word that satisfies the formula they are an accepting lasso of the automaton, as `empty` writes it, and its
/// word.
///
/// `formula` is the text that a refusal calls the file, and `text` the one that it calls the input. Fails with the
/// refusal of `formula`, or else with the [Refusal::Text] or [Refusal::Automaton] of `text`. Or else fails with
/// [TaskFault::Controllable] as `verify_formula_controller` does. Or else fails as `judge_counter_strategy_for_formula`
/// does: [TaskFault::UniversalBranch], [TaskFault::NotParity] and [TaskFault::NotDeterministic] are about `text`, and
/// [TaskFault::TooLarge] and [TaskFault::TooManyPropositions] about neither text.
pub fn verify_formula_counter_strategy(
    alloc: Global,
    formula: &[u8],
    names: GivenNames<'_>,
    text: &[u8],
    explain: bool,
) -> Result<(Exit, Vec<u8>), Refused>
    ensures answer { IfOk result (λ made. IsFormulaCounterAnswer
        formula.now (lists_of names.entry) text.now explain made.0 made.1.items) }
    ensures refused { IfErr result (IsFormulaCounterRefused formula.now (lists_of names.entry) text.now) }
{
    match read_formula(alloc, formula) {
        Ok(read) => counter_verdict_on_text(alloc, &read, names, text, explain),
        Err(refusal) => Err(Refused::of(Which::File, refusal)),
    }
}

/// Returns the exit and the text for a formula and the automaton of `text`. Fails as [verify_formula_counter_strategy]
/// does after the formula is read.
fn counter_verdict_on_text(
    alloc: Global,
    formula: &Formula,
    names: GivenNames<'_>,
    text: &[u8],
    explain: bool,
) -> Result<(Exit, Vec<u8>), Refused>
    ensures verdict { IfOk result (λ made. (a : Description) × IsAutomatonText text.now a
        × IsNamedCounterVerdict formula.now (lists_of names.entry) a explain made.0 made.1.items) }
    ensures refused { IfErr result (λ refused. (source : List ℕ) → IsFormulaOfText source formula.now
        → IsFormulaCounterRefused source (lists_of names.entry) text.now refused) }
{
    match read_one(alloc, text) {
        Ok(automaton) => named_counter_verdict(alloc, formula, names, &automaton, explain),
        Err(refusal) => Err(Refused::of(Which::Input, refusal)),
    }
}

/// Returns the exit and the text for a formula, the names that are given and an automaton. Fails as
/// [verify_formula_counter_strategy] does after both texts are read.
fn named_counter_verdict(
    alloc: Global,
    formula: &Formula,
    names: GivenNames<'_>,
    strategy: &Automaton,
    explain: bool,
) -> Result<(Exit, Vec<u8>), Refused>
    ensures verdict { IfOk result (λ made. IsNamedCounterVerdict
        formula.now (lists_of names.entry) strategy.now explain made.0 made.1.items) }
    ensures refused { IfErr result (RefusesNamedCounter formula.now (lists_of names.entry) strategy.now) }
{
    match outputs_of(alloc, formula, names) {
        Ok(outs) => formula_counter_verdict(alloc, formula, outs.as_slice(), strategy, explain),
        Err(unparted) => Err(Refused::of(Which::File, unparted)),
    }
}

/// Returns the exit and the text for a formula, its outputs and an automaton. Fails as
/// [verify_formula_counter_strategy] does after the outputs are known.
fn formula_counter_verdict(
    alloc: Global,
    formula: &Formula,
    outs: &[ByteString],
    strategy: &Automaton,
    explain: bool,
) -> Result<(Exit, Vec<u8>), Refused>
    ensures verdict { IfOk result (λ made.
        IsFormulaCounterVerdict formula.now outs.now strategy.now explain made.0 made.1.items) }
    ensures refused { IfErr result (RefusesFormulaCounter formula.now outs.now strategy.now) }
{
    check_outputs(alloc, outs, strategy)?;
    match formula_counter_reply(alloc, formula, outs, strategy, explain) {
        Ok(made) => Ok(made),
        Err(refusal) => Err(counter_reported(refusal)),
    }
}

/// Returns the exit and the text for a formula, outputs on which the automaton agrees, and the automaton. Fails as
/// `judge_counter_strategy_for_formula` does.
fn formula_counter_reply(
    alloc: Global,
    formula: &Formula,
    outs: &[ByteString],
    strategy: &Automaton,
    explain: bool,
) -> Result<(Exit, Vec<u8>), Refusal>
    requires { AreOutputs outs.now strategy.now }
    ensures verdict { IfOk result (λ made.
        IsFormulaCounterVerdict formula.now outs.now strategy.now explain made.0 made.1.items) }
    ensures refused { IfErr result (IsFormulaCounterRefusal formula.now strategy.now outs.now) }
{
    let judgement = judge_counter_strategy_for_formula(alloc, formula, strategy, outs)?;
    let answer = formula_counter_answer(alloc, &judgement, explain)?;
    answer.reply(alloc)
}

/// Returns the answer that tells a judgement, and with the reason if `explain` is set.
fn formula_counter_answer(
    alloc: Global,
    judgement: &FormulaCounterJudgement,
    explain: bool,
) -> Result<Answer, Refusal>
    ensures answer { IfOk result (λ answer. answer ≡ formula_counter_answer explain judgement.now) }
    ensures memory { IsOkUnless result Refusal.Memory }
{
    match judgement {
        FormulaCounterJudgement::Beats => Ok(Answer::Yes),
        FormulaCounterJudgement::NoStart => {
            let lines = start_lines(alloc, explain)?;
            Ok(Answer::no_with(lines))
        }
        FormulaCounterJudgement::NoLetter(letterless) => {
            let lines = state_lines(alloc, letterless, explain)?;
            Ok(Answer::no_with(lines))
        }
        FormulaCounterJudgement::Satisfying(example) => {
            let lines = counterexample_lines(alloc, &[], example, explain)?;
            Ok(Answer::no_with(lines))
        }
    }
}

/// Returns the lines of a state in which the environment has no letter, if `explain` is set, and else nothing.
fn state_lines(
    alloc: Global,
    letterless: &LetterlessState,
    explain: bool,
) -> Result<Vec<u8>, Refusal>
    ensures lines { IfOk result (λ lines. lines.items ≡ explained explain (state_lines letterless.now)) }
    ensures memory { IsOkUnless result Refusal.Memory }
{
    let mut out = Vec::new(alloc);
    if explain {
        append_state(letterless, &mut out)?;
    }
    Ok(out)
}

/// Appends the lines of a state in which the environment has no letter.
fn append_state(letterless: &LetterlessState, out: &mut Vec<u8>) -> Result<(), Refusal>
    ensures lines { OnOk result (out.new.items ≡ out.old.items ++ state_lines letterless.now) }
    ensures memory { IsOkUnless result Refusal.Memory }
{
    out.extend_from_slice(b"state ")?;
    write_number(u128::from(letterless.state), out)?;
    out.extend_from_slice(b"\nstem")?;
    append_numbers(letterless.stem.as_slice(), out)?;
    out.extend_from_slice(b"\n")?;
    Ok(())
}
