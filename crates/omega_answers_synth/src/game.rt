//! The game in which it is decided whether an automaton is realizable.

ghost use Rattle.std.specs.Prelude.{IfErr, IfOk};
ghost use Rattle.omega_text.specs.Cases.{or_memory};
ghost use Rattle.omega_answers_synth.specs.Game.{IsGameAnswer, IsGameRefusal};
ghost use Rattle.omega_answers_synth.specs.private.Game.{IsGameOfText};

use crate::question::question_in;
use omega_game_values::Game;
use omega_hoa_automaton::Refusal;
use omega_pg::write_game;
use omega_synth_realize::realizability_game;
use std::alloc::Global;

/// Returns the canonical text of the game in which it is decided whether the automaton of `text` is realizable, where
/// the system controls the propositions that its item `controllable-AP:` lists.
///
/// Fails with the [Refusal::Text] or [Refusal::Automaton] of the text, or else with [TaskFault::Controllable], or else
/// as `realizability_game` does.
pub fn write_realizability_game(alloc: Global, text: &[u8]) -> Result<Vec<u8>, Refusal>
    ensures answer { IfOk result (λ output. IsGameAnswer text.now output.items) }
    ensures refused { IfErr result (or_memory (IsGameRefusal text.now)) }
{
    let game = game_in(alloc, text)?;
    write_game(alloc, game.forward_game())
}

/// Returns the game of `text`. Its automaton is dropped. Fails as [write_realizability_game] does.
fn game_in(alloc: Global, text: &[u8]) -> Result<Game, Refusal>
    ensures game { IfOk result (IsGameOfText text.now) }
    ensures refused { IfErr result (or_memory (IsGameRefusal text.now)) }
{
    let question = question_in(alloc, text)?;
    realizability_game(alloc, &question.automaton, question.controlled.as_slice())
}
