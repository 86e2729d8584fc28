ghost use Rattle.std.specs.Prelude.{◌≡◌};
ghost use Rattle.omega_arrays.specs.Arrays.{arrays};
ghost use Rattle.omega.specs.Solving.{IsSolveOutcome, asks};

use crate::game::Game;
use crate::outcome::Outcome;
use omega_arrays::{Lifts, solve_arrays};
use std::alloc::Global;

/// Solves the game of the arrays for both players. Writes the winner of each node, 0 or 1, and the winner's choice
/// there, or 2^32 - 1 if the winner does not own the node. Also writes how many lifts the run for each player made.
///
/// If `by_search` is not 0, a search is tried first, which makes no lifts. A `budget` above 2^40 counts as 2^40.
///
/// The number of the outcome is 0, or that of [ArrayFault::BadShape], [GameFault::TooManyNodes],
/// [GameFault::TooManyEdges], [TaskFault::TooWide], [TaskFault::Budget] or [Refusal::Memory]. Unless it is 0, nothing
/// is written.
#[unsafe(no_mangle)]
pub extern "C" fn omega_solve(
    alloc: Global,
    game: &Game<'_>,
    by_search: u8,
    budget: u64,
    winners: &mut [u8],
    choices: &mut [u32],
    lifts: &mut Lifts,
) -> Outcome
    ensures { let a = arrays game.now.priorities.now game.now.owners.now game.now.starts.now
        game.now.successors.now in
        IsSolveOutcome a by_search budget result
        winners.old winners.new choices.old choices.new lifts.old lifts.new }
{
    match solve_arrays(
        alloc,
        &game.arrays(),
        asks(by_search),
        budget,
        winners,
        choices,
    ) {
        Ok(made) => {
            *lifts = made;
            Outcome::success()
        }
        Err(fault) => Outcome::of(fault),
    }
}

/// Whether a number is not 0.
pub(crate) fn asks(number: u8) -> bool
    ensures { result ≡ asks number }
{
    number != 0
}
