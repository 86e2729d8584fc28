//! Games as arrays, solved.
ghost use Rattle.std.specs.Prelude.{◌≡◌, ◌≤◌, All, IfOk, IfErr, IsOk, OnOk, OnErr, None, false};
ghost use Rattle.std.specs.Prelude.{length};
ghost use Rattle.omega_game_values.specs.Solution.{IsExactSolution};
ghost use Rattle.omega_solve.specs.Limits.{most_lifts};
ghost use Rattle.omega_solve.specs.Turns.{IsNarrow};
ghost use Rattle.omega_arrays.specs.Answer.{solution_in, wrong_room};
ghost use Rattle.omega_arrays.specs.Arrays.{nodes_in};
ghost use Rattle.omega_arrays.specs.Shape.{IsSized};
ghost use Rattle.omega_arrays.specs.Solving.{AreLifts, IsArraysSolvingRefusal};
ghost use Rattle.omega_arrays.specs.Solving.{IsWholeRefusal, budget_of, or_shape};

use crate::answer::{write_solution, wrong_room};
use crate::arrays::Arrays;
use crate::building::built_game;
use crate::fault::ArrayFault;
use crate::lifting::{lifted_uncounted, solution_by_lifting};
use omega_game::{Game, Refusal, Solution};
use omega_game_search::solve_by_search;
use omega_solve::MOST_LIFTS;
use std::alloc::Global;

/// How many lifts the run for each player made. Those of a solution by search, or by lifting for both players in turns,
/// are not counted.
#[repr(C)]
#[derive(Clone, Copy, Debug, PartialEq, Eq)]
pub struct Lifts {
    /// Those of player 0's run.
    pub zero: u64,
    /// Those of player 1's run.
    pub one: u64,
}

/// Solves the game of the arrays for both players. Writes for each place its winner, and the winner's choice there, or
/// [NO_CHOICE] if the winner does not own the node. Each run makes at most `budget` lifts, and at most 2^40. With
/// `by_search` a search is tried first, and if it gives an answer no lifts are made. If it gives none and `budget` is
/// at least 2^40, the players are lifted for in turns, whatever their bounds, and these lifts are not counted.
///
/// Refused with [ArrayFault::BadShape], [GameFault::TooManyNodes], [GameFault::TooManyEdges], [TaskFault::TooWide],
/// [TaskFault::Budget] or [Refusal::Memory]. Then nothing is written.
pub fn solve_arrays(
    alloc: Global,
    arrays: &Arrays<'_>,
    by_search: bool,
    budget: u64,
    winners: &mut [u8],
    choices: &mut [u32],
) -> Result<Lifts, ArrayFault>
    ensures exact { OnOk result
        (IsExactSolution (nodes_in arrays.now) (solution_in winners.new choices.new)) }
    ensures players { OnOk result (All (λ p. p ≤ 1) winners.new) }
    ensures lifts { IfOk result (AreLifts by_search (nodes_in arrays.now) (budget_of budget)) }
    ensures faultless { IsOk result
        → wrong_room arrays.now (length winners.old) (length choices.old) ≡ None }
    ensures sized { IsOk result → IsSized arrays.now }
    ensures narrow { IsOk result → by_search ≡ false → IsNarrow (nodes_in arrays.now) }
    ensures winners_kept { OnErr result (winners.new ≡ winners.old) }
    ensures choices_kept { OnErr result (choices.new ≡ choices.old) }
    ensures refused { IfErr result (or_shape
        (wrong_room arrays.now (length winners.old) (length choices.old))
        (IsArraysSolvingRefusal arrays.now (budget_of budget))) }
{
    if let Some(wrong) = wrong_room(arrays, winners.len(), choices.len()) {
        return Err(ArrayFault::BadShape(wrong));
    }
    let game = built_game(alloc, arrays)?;
    let (solution, lifts) = solution_of(alloc, &game, by_search, budget.min(MOST_LIFTS))?;
    write_solution(game.forward_game(), &solution, winners, choices);
    Ok(lifts)
}

/// Solves the game by the search if `by_search` requests it and it gives an answer, or else by lifting.
fn solution_of(
    alloc: Global,
    game: &Game,
    by_search: bool,
    budget: u64,
) -> Result<(Solution, Lifts), Refusal>
    requires { budget ≤ most_lifts }
    ensures exact { IfOk result (λ found. IsExactSolution game.now found.0) }
    ensures lifts { IfOk result (λ found. AreLifts by_search game.now budget found.1) }
    ensures narrow { IsOk result → by_search ≡ false → IsNarrow game.now }
    ensures refused { IfErr result (IsWholeRefusal game.now budget) }
{
    if !by_search {
        return solution_by_lifting(alloc, game.forward_game(), budget);
    }
    if let Some(solution) = solve_by_search(alloc, game)? {
        return Ok((solution, Lifts { zero: 0, one: 0 }));
    }
    lifted_uncounted(alloc, game.forward_game(), budget)
}
