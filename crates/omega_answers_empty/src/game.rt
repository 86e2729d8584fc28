ghost use Rattle.std.specs.Prelude.{IfOk, IfErr, OnOk};
ghost use Rattle.omega_answers_empty.specs.Game.{IsEmptinessGameAnswer, IsEmptinessGameRefusal};
ghost use Rattle.omega_empty.specs.EmptinessGame.{IsEmptinessGame};
ghost use Rattle.omega_empty.specs.Refusing.{IsGameRefusal, IsGiven};
ghost use Rattle.omega_text.specs.Cases.{or_memory};

use omega_empty::emptiness_game;
use omega_game_values::{ForwardGame, Refusal};
use omega_hoa::read_one;
use omega_hoa_automaton::Automaton;
use omega_pg::write_game;
use std::alloc::Global;

/// Returns the canonical text of the emptiness game of the automaton of `text`. Fails with the [Refusal::Text] or
/// [Refusal::Automaton] of the text, or else with the first that applies of [GameFault::TooManyNodes],
/// [TaskFault::NotParity], [TaskFault::UniversalBranch] and [TaskFault::TooManyPropositions].
pub fn write_emptiness_game(alloc: Global, text: &[u8]) -> Result<Vec<u8>, Refusal>
    ensures answer { IfOk result (λ output. IsEmptinessGameAnswer text.now output.items) }
    ensures refused { IfErr result (or_memory (IsEmptinessGameRefusal text.now)) }
{
    let automaton = read_one(alloc, text)?;
    let game = game_of(alloc, automaton)?;
    write_game(alloc, &game)
}

/// Returns the emptiness game of `automaton`, which is dropped. Fails with the first that applies of
/// [GameFault::TooManyNodes], [TaskFault::NotParity], [TaskFault::UniversalBranch] and
/// [TaskFault::TooManyPropositions].
fn game_of(alloc: Global, automaton: Automaton) -> Result<ForwardGame, Refusal>
    ensures game { IfOk result (IsEmptinessGame automaton) }
    ensures given { OnOk result (IsGiven automaton) }
    ensures refused { IfErr result (IsGameRefusal automaton) }
{
    emptiness_game(alloc, &automaton)
}
