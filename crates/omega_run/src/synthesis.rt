//! What each command makes of a formula whose propositions are parted, or of an automaton for such a formula.
ghost use Rattle.std.specs.Prelude.{◌≡◌, Ok, Err, IfOk, IfErr, option_map};
ghost use Rattle.omega_text.specs.Cases.{or_memory};
ghost use Rattle.omega_io.specs.Failures.{failures_of};
ghost use Rattle.omega_answers_synth.specs.Outputs.{lists_of};
ghost use Rattle.omega_run.specs.FormulaJudge.{AnswersFormulaJudge, RefusesFormulaJudge};
ghost use Rattle.omega_run.specs.Synthesis.{AnswersSynthesis, lists_in};

use crate::circuit_form::form_for;
use crate::texts::Texts;
use omega_aiger::begins_as_circuit;
use omega_answers_circuit::{verify_formula_circuit, write_formula_circuit};
use omega_answers_synth::{
    GivenNames, decide_formula_realizability, formula_refusals_are_no_failures,
    verify_formula_controller, verify_formula_counter_strategy, write_formula_game,
    write_formula_winner,
};
use omega_cli_command::{ByteString, FormulaJudge, Partition, Synthesis};
use omega_io::{Exit, Refusal, Refused};
use std::alloc::Global;

/// Returns what a command makes of a formula, with how it ends, or why the formula is refused.
pub(crate) fn answer_synthesis(
    alloc: Global,
    asked: Synthesis,
    partition: &Partition,
    formula: &[u8],
) -> Result<(Exit, Vec<u8>), Refusal>
    ensures answered { IfOk result (λ made.
        AnswersSynthesis asked (lists_in partition.now) formula.now (Ok (made.0, made.1.items))) }
    ensures refused { IfErr result (or_memory
        (λ refusal. AnswersSynthesis asked (lists_in partition.now) formula.now (Err refusal))) }
    ensures unfailed { failures_of result ≡ 0 }
{
    formula_refusals_are_no_failures();
    let names = given_names(partition);
    match asked {
        Synthesis::Decide => decide_formula_realizability(alloc, formula, names),
        Synthesis::Controller => write_formula_winner(alloc, formula, names),
        Synthesis::Game => Ok((Exit::Done, write_formula_game(alloc, formula, names)?)),
        Synthesis::Circuit { binary } => {
            write_formula_circuit(alloc, formula, names, form_for(binary))
        }
    }
}

/// Returns whether the text of the input, that of a circuit if it begins as one, or else of an automaton, is right for
/// the formula of the other, with how the command ends; or why the texts are refused, and which of them that is about.
pub(crate) fn answer_formula_judge(
    alloc: Global,
    asked: FormulaJudge,
    partition: &Partition,
    texts: Texts<'_>,
) -> Result<(Exit, Vec<u8>), Refused>
    ensures answered { IfOk result (λ made. AnswersFormulaJudge asked (lists_in partition.now)
        texts.entry.other.now texts.entry.input.now made.0 made.1.items) }
    ensures refused { IfErr result (RefusesFormulaJudge asked (lists_in partition.now)
        texts.entry.other.now texts.entry.input.now) }
{
    let Texts { other, input } = texts;
    let names = given_names(partition);
    match asked {
        FormulaJudge::Controller { explain } => {
            if begins_as_circuit(input) {
                verify_formula_circuit(alloc, other, input, names, explain)
            } else {
                verify_formula_controller(alloc, other, names, input, explain)
            }
        }
        FormulaJudge::CounterStrategy { explain } => {
            verify_formula_counter_strategy(alloc, other, names, input, explain)
        }
    }
}

/// Returns the names that a command line gives.
fn given_names(partition: &Partition) -> GivenNames<'_>
    ensures { lists_of result ≡ lists_in partition.now }
{
    GivenNames {
        outs: lent_names(&partition.outs),
        ins: lent_names(&partition.ins),
    }
}

/// Returns a list of names, if it is given.
fn lent_names(names: &Option<Vec<ByteString>>) -> Option<&[ByteString]>
    ensures { option_map (λ list. list.now) result ≡ option_map (λ list. list.items) names.now }
{
    match names {
        Some(names) => Some(names.as_slice()),
        None => None,
    }
}
