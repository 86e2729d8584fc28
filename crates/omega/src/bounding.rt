ghost use Rattle.omega_arrays.specs.Arrays.{arrays};
ghost use Rattle.omega.specs.Bounding.{IsBoundOutcome};

use crate::game::Game;
use crate::outcome::Outcome;
use omega_arrays::{Bounds, bound_arrays};
use std::alloc::Global;

/// Writes the bound on the lifts of a run for each player on the game of the arrays.
///
/// The number of the outcome is 0, or that of [ArrayFault::BadShape], [GameFault::TooManyNodes],
/// [GameFault::TooManyEdges] or [Refusal::Memory]. Unless it is 0, nothing is written.
#[unsafe(no_mangle)]
pub extern "C" fn omega_bound(alloc: Global, game: &Game<'_>, bounds: &mut Bounds) -> Outcome
    ensures { let a = arrays game.now.priorities.now game.now.owners.now game.now.starts.now
        game.now.successors.now in
        IsBoundOutcome a result bounds.old bounds.new }
{
    match bound_arrays(alloc, &game.arrays()) {
        Ok(made) => {
            *bounds = made;
            Outcome::success()
        }
        Err(fault) => Outcome::of(fault),
    }
}
