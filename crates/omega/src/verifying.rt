ghost use Rattle.omega_arrays.specs.Arrays.{arrays};
ghost use Rattle.omega.specs.Verifying.{IsVerifyOutcome};

use crate::game::Game;
use crate::outcome::Outcome;
use omega_arrays::{Verdict, verify_arrays};
use std::alloc::Global;

/// Judges whether the choices of a solution win from all nodes given to each player. If they do not, names the least
/// player whose choices do not, and writes a counterexample: a walk to a cycle on which the player loses, and that
/// cycle. `stem` and `cycle` get as many of their places as they have room for, and the verdict has their numbers.
///
/// The number of the outcome is 0, or that of [ArrayFault::BadShape], [GameFault::TooManyNodes],
/// [GameFault::TooManyEdges], [TaskFault::BadSolution] or [Refusal::Memory]. Unless it is 0, nothing is written.
#[unsafe(no_mangle)]
pub extern "C" fn omega_verify(
    alloc: Global,
    game: &Game<'_>,
    winners: &[u8],
    choices: &[u32],
    verdict: &mut Verdict,
    stem: &mut [u32],
    cycle: &mut [u32],
) -> Outcome
    ensures { let a = arrays game.now.priorities.now game.now.owners.now game.now.starts.now
        game.now.successors.now in
        IsVerifyOutcome a winners.now choices.now result
        verdict.old verdict.new stem.old stem.new cycle.old cycle.new }
{
    match verify_arrays(alloc, &game.arrays(), winners, choices, stem, cycle) {
        Ok(made) => {
            *verdict = made;
            Outcome::success()
        }
        Err(fault) => Outcome::of(fault),
    }
}
