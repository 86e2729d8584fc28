ghost use Rattle.std.specs.Prelude.{◌<◌, IfErr, IfOk, IsOkUnless, OnOk, length};
ghost use Rattle.omega_game_values.specs.Solution.{IsExactSolution};
ghost use Rattle.omega_solve.specs.Limits.{most_lifts};
ghost use Rattle.omega_synth_rounds.specs.Rounds.{IsRounds};
ghost use Rattle.omega_synth_rounds.specs.RoundsGame.{FitsAGame, IsRoundsGame};
ghost use Rattle.omega_synth_realize.specs.Solving.{IsOutcome, IsOutcomeRefusal};

use crate::lifting::lift_in;
use crate::outcome::Outcome;
use crate::winning::{controller_outcome, counter_strategy_outcome};
use omega_game_search::solve_by_search;
use omega_game_values::{Player, Solution, choices_are_entries};
use omega_solve::MOST_LIFTS;
use omega_solve::budget::NoObserver;
use omega_synth_rounds::{Game, Rounds, rounds_game};
use omega_text::Refusal;
use std::alloc::Global;

/// Decides who wins `rounds` from the state `start`, and returns what wins. The game of the rounds is solved by a
/// judged search, and by lifting where that gives nothing.
///
/// Fails with [GameFault::TooManyNodes] or [GameFault::TooManyEdges] if the game is too large. Where the search gives
/// nothing, fails as `lift_rounds` does for a budget of `MOST_LIFTS`.
pub fn solve_rounds(alloc: Global, rounds: &Rounds, start: u32) -> Result<Outcome, Refusal>
    requires rounds { IsRounds rounds.now }
    requires start { start < length rounds.now.states }
    ensures outcome { IfOk result (IsOutcome rounds.now start) }
    ensures fits { OnOk result (FitsAGame rounds.now) }
    ensures refused { IfErr result (IsOutcomeRefusal rounds.now start most_lifts) }
{
    let game = rounds_game(alloc, rounds)?;
    solve_in(alloc, rounds, &game, start)
}

/// Decides who wins `rounds` from `start` in their `game`. Fails with [TaskFault::TooWide] or [TaskFault::Budget].
fn solve_in(alloc: Global, rounds: &Rounds, game: &Game, start: u32) -> Result<Outcome, Refusal>
    requires rounds { IsRounds rounds.now }
    requires fits { FitsAGame rounds.now }
    requires game { IsRoundsGame rounds.now game.now }
    requires start { start < length rounds.now.states }
    ensures outcome { IfOk result (IsOutcome rounds.now start) }
    ensures refused { IfErr result (IsOutcomeRefusal rounds.now start most_lifts) }
{
    match solve_by_search(alloc, game)? {
        Some(solution) => {
            let outcome = by_solution(alloc, rounds, game, &solution, start)?;
            Ok(outcome)
        }
        None => lift_in(alloc, rounds, game, start, MOST_LIFTS, &NoObserver, &mut ()),
    }
}

/// Returns the outcome that an exact `solution` of the `game` gives.
fn by_solution(
    alloc: Global,
    rounds: &Rounds,
    game: &Game,
    solution: &Solution,
    start: u32,
) -> Result<Outcome, Refusal>
    requires rounds { IsRounds rounds.now }
    requires game { IsRoundsGame rounds.now game.now }
    requires start { start < length rounds.now.states }
    requires exact { IsExactSolution game.now solution.now }
    ensures outcome { IfOk result (IsOutcome rounds.now start) }
    ensures memory { IsOkUnless result Refusal.Memory }
{
    choices_are_entries();
    game.keeps_limits();
    let winner = solution.winners.as_slice()[start as usize];
    match winner {
        Player::Zero => controller_outcome(
            alloc,
            rounds,
            game,
            solution.zero.choice.as_slice(),
            start,
        ),
        Player::One => counter_strategy_outcome(
            alloc,
            rounds,
            game,
            solution.one.choice.as_slice(),
            start,
        ),
    }
}
