//! The game in which it is decided whether a formula is realizable.

ghost use Rattle.std.specs.Prelude.{IfErr, IfOk};
ghost use Rattle.omega_text.specs.Cases.{or_memory};
ghost use Rattle.omega_answers_formula.specs.Deterministic.{IsNotDetermined};
ghost use Rattle.omega_answers_synth.specs.FormulaGame.{IsAutomatonOfFormula, IsFormulaGame, IsFormulaGameAnswer};
ghost use Rattle.omega_answers_synth.specs.FormulaGame.{IsFormulaGameRefusal, IsNamedGame, IsNotGamed};
ghost use Rattle.omega_answers_synth.specs.FormulaGame.{RefusesNamedGame};
ghost use Rattle.omega_answers_synth.specs.Outputs.{lists_of};

use crate::given_names::GivenNames;
use crate::outputs::outputs_of;
use crate::own_faults::unjudged_for_form;
use omega_game_values::Game;
use omega_hoa_automaton::{Automaton, Refusal};
use omega_ltl_deterministic::complete_candidate;
use omega_ltl_equality::judged_automaton;
use omega_ltl_formula::Formula;
use omega_ltl_text::read_formula;
use omega_pg::write_game;
use omega_synth_check::numbers_named;
use omega_synth_realize::realizability_game;
use omega_text::ByteString;
use std::alloc::Global;

/// Returns the canonical text of the game in which it is decided whether the formula of `formula` is realizable, with
/// the names that are given as for `decide_formula_realizability`. It is the game of a deterministic automaton that is
/// judged to accept exactly the words that satisfy the formula. Player 0 is the system.
///
/// Fails as `decide_formula_realizability` does up to that automaton. Or else fails as `judged_automaton` of
/// `omega_ltl_equality` does: with [TaskFault::TooLarge] or [TaskFault::TooManyPropositions], or with
/// [TaskFault::Unjudged] if the automaton is not judged so, which is a fault of the program. Or else fails as
/// `realizability_game` does for its size.
pub fn write_formula_game(
    alloc: Global,
    formula: &[u8],
    names: GivenNames<'_>,
) -> Result<Vec<u8>, Refusal>
    ensures answer { IfOk result
        (λ output. IsFormulaGameAnswer formula.now (lists_of names.entry) output.items) }
    ensures refused { IfErr result (or_memory (IsFormulaGameRefusal formula.now (lists_of names.entry))) }
{
    let read = read_formula(alloc, formula)?;
    let game = named_game(alloc, &read, names)?;
    write_game(alloc, game.forward_game())
}

/// Returns the game of `formula` and the names that are given. Fails as [write_formula_game] does after the formula is
/// read.
fn named_game(alloc: Global, formula: &Formula, names: GivenNames<'_>) -> Result<Game, Refusal>
    ensures game { IfOk result (IsNamedGame formula.now (lists_of names.entry)) }
    ensures refused { IfErr result (or_memory (RefusesNamedGame formula.now (lists_of names.entry))) }
{
    let outs = outputs_of(alloc, formula, names)?;
    formula_game(alloc, formula, outs.as_slice())
}

/// Returns the game of `formula` and its outputs. Fails as [write_formula_game] does after the outputs are known.
fn formula_game(alloc: Global, formula: &Formula, outs: &[ByteString]) -> Result<Game, Refusal>
    ensures game { IfOk result (IsFormulaGame formula.now outs.now) }
    ensures refused { IfErr result (IsNotGamed formula.now outs.now) }
{
    let automaton = automaton_of_formula(alloc, formula)?;
    automaton.keeps_limits();
    let controlled = numbers_named(alloc, automaton.propositions(), outs)?;
    let numbers = controlled.as_slice();
    match realizability_game(alloc, &automaton, numbers) {
        Ok(game) => Ok(game),
        Err(refusal) => Err(unjudged_for_form(refusal)),
    }
}

/// Returns a deterministic automaton that accepts exactly the words that satisfy `formula`, with an edge for each
/// letter in each state. Fails with [TaskFault::TooLarge] if its search passes a limit, or else as `judged_automaton`
/// does.
fn automaton_of_formula(alloc: Global, formula: &Formula) -> Result<Automaton, Refusal>
    ensures right { IfOk result (IsAutomatonOfFormula formula.now) }
    ensures refused { IfErr result (IsNotDetermined formula.now) }
{
    let candidate = complete_candidate(alloc, formula)?;
    match judged_automaton(alloc, candidate, formula) {
        Ok(judged) => Ok(judged),
        Err(refusal) => Err(refusal),
    }
}
