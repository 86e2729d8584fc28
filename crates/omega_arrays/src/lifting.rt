//! Games solved by lifting for both players.
ghost use Rattle.std.specs.Prelude.{◌≡◌, ◌≤◌, IfOk, IfErr, IsOk, true};
ghost use Rattle.omega_game_values.specs.Solution.{IsExactSolution};
ghost use Rattle.omega_solve.specs.Limits.{most_lifts};
ghost use Rattle.omega_solve.specs.Turns.{IsNarrow};
ghost use Rattle.omega_arrays.specs.Solving.{AreLifts, EndBoth, IsWholeRefusal};

use crate::solving::Lifts;
use omega_answers_game::{fits_both, solution_in_turns, winners_of};
use omega_game::{ForwardGame, Player, Refusal, Seq, Solution, Strategy};
use omega_game_region_laws::{regions_are_apart, regions_cover};
use omega_solve::MOST_LIFTS;
use omega_solve::budget::{NoObserver, Reordered};
use std::alloc::Global;

/// Solves the game by lifting for one player and then for the other, and returns also how many lifts the runs made.
/// Both players' tables are fitted before either is lifted, so that [TaskFault::TooWide] comes before
/// [TaskFault::Budget].
pub(crate) fn solution_by_lifting(
    alloc: Global,
    game: &ForwardGame,
    budget: u64,
) -> Result<(Solution, Lifts), Refusal>
    requires { budget ≤ most_lifts }
    ensures exact { IfOk result (λ found. IsExactSolution game.now found.0) }
    ensures lifts { IfOk result (λ found. EndBoth game.now budget found.1) }
    ensures narrow { IsOk result → IsNarrow game.now }
    ensures refused { IfErr result (IsWholeRefusal game.now budget) }
{
    fits_both(game)?;
    let reordered = Reordered::of(alloc, game)?;
    lifted_for_both(alloc, game, &reordered, budget)
}

/// Solves a game for which a search gives no answer. If `budget` is the most lifts that a solver makes, the players are
/// lifted for in turns, whatever their bounds, and their lifts are not counted. Else, or if the turns do not suffice,
/// it is solved as [solution_by_lifting] does.
pub(crate) fn lifted_uncounted(
    alloc: Global,
    game: &ForwardGame,
    budget: u64,
) -> Result<(Solution, Lifts), Refusal>
    requires { budget ≤ most_lifts }
    ensures exact { IfOk result (λ found. IsExactSolution game.now found.0) }
    ensures lifts { IfOk result (λ found. AreLifts true game.now budget found.1) }
    ensures refused { IfErr result (IsWholeRefusal game.now budget) }
{
    if budget == MOST_LIFTS {
        let turned = solution_in_turns(alloc, game)?;
        if let Some(solution) = turned {
            return Ok((solution, Lifts { zero: 0, one: 0 }));
        }
    }
    solution_by_lifting(alloc, game, budget)
}

/// Solves the game as [solution_by_lifting] does if it is too wide for neither player.
fn lifted_for_both(
    alloc: Global,
    game: &ForwardGame,
    reordered: &Reordered<'_>,
    budget: u64,
) -> Result<(Solution, Lifts), Refusal>
    requires budget { budget ≤ most_lifts }
    requires given { reordered.now.given ≡ game.now }
    requires narrow { IsNarrow game.now }
    ensures exact { IfOk result (λ found. IsExactSolution game.now found.0) }
    ensures lifts { IfOk result (λ found. EndBoth game.now budget found.1) }
    ensures refused { IfErr result (IsWholeRefusal game.now budget) }
{
    regions_are_apart();
    regions_cover();
    game.keeps_limits();
    let zero = reordered.solve(alloc, Player::Zero, budget, &NoObserver, &mut ())?;
    let one = reordered.solve(alloc, Player::One, budget, &NoObserver, &mut ())?;
    let winners = winners_of(alloc, zero.won.as_slice())?;
    let lifts = Lifts {
        zero: zero.lifts,
        one: one.lifts,
    };
    let solution = Solution {
        winners: Seq::from_vec(winners),
        zero: Strategy {
            choice: Seq::from_vec(zero.choice),
        },
        one: Strategy {
            choice: Seq::from_vec(one.choice),
        },
    };
    Ok((solution, lifts))
}
