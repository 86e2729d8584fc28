//! Solutions as arrays, judged.
ghost use Rattle.std.specs.Prelude.{◌≡◌, IfOk, IfErr, IsOk, IsOkUnless, OnErr, None, length};
ghost use Rattle.omega_text.specs.declared.refusal.Refusal.TheVariants.{Memory};
ghost use Rattle.omega_game_values.specs.Solution.{IsSolution};
ghost use Rattle.omega_arrays.specs.Answer.{solution_in, wrong_answer};
ghost use Rattle.omega_arrays.specs.Arrays.{nodes_in};
ghost use Rattle.omega_arrays.specs.Judging.{IsFinding, IsJudgement, IsArraysJudgingRefusal};
ghost use Rattle.omega_arrays.specs.Judging.{IsArraysSolutionRefusal, IsVerdictOf};
ghost use Rattle.omega_arrays.specs.Shape.{IsSized};
ghost use Rattle.omega_arrays.specs.Solving.{or_shape};

use crate::answer::{is_solution, solution_held, wrong_answer};
use crate::arrays::Arrays;
use crate::building::game_of_arrays;
use crate::copying::copy_into;
use crate::fault::ArrayFault;
use omega_answers_game::lost_by;
use omega_game::{ForwardGame, Lasso, Player, Refusal, Solution, TaskFault};
use std::alloc::Global;

/// The verdict on a solution.
#[repr(C)]
#[derive(Clone, Copy, Debug, PartialEq, Eq)]
pub struct Verdict {
    /// 1 if for each player the choices win from all nodes given to that player, or else 0.
    pub is_right: u32,
    /// If it is 0, the number of the least player whose choices do not.
    pub player: u32,
    /// If it is 0, how many places the stem of the counterexample has.
    pub stem: u64,
    /// If it is 0, how many places its cycle has.
    pub cycle: u64,
}

/// Judges whether the choices win from all nodes given to each player. If they do not, a counterexample is written: a
/// walk to a cycle, and that cycle. `stem` and `cycle` get as many of their places as they have room for.
///
/// Refused with [ArrayFault::BadShape], [GameFault::TooManyNodes], [GameFault::TooManyEdges], [TaskFault::BadSolution]
/// if the arrays hold no solution of the game, or [Refusal::Memory]. Then nothing is written.
pub fn verify_arrays(
    alloc: Global,
    arrays: &Arrays<'_>,
    winners: &[u8],
    choices: &[u32],
    stem: &mut [u32],
    cycle: &mut [u32],
) -> Result<Verdict, ArrayFault>
    ensures judged { IfOk result (λ verdict.
        IsJudgement (nodes_in arrays.now) (solution_in winners.now choices.now)
        verdict stem.old stem.new cycle.old cycle.new) }
    ensures solution { IsOk result
        → IsSolution (nodes_in arrays.now) (solution_in winners.now choices.now) }
    ensures faultless { IsOk result → wrong_answer arrays.now winners.now choices.now ≡ None }
    ensures sized { IsOk result → IsSized arrays.now }
    ensures stem_kept { OnErr result (stem.new ≡ stem.old) }
    ensures cycle_kept { OnErr result (cycle.new ≡ cycle.old) }
    ensures refused { IfErr result (or_shape
        (wrong_answer arrays.now winners.now choices.now)
        (IsArraysJudgingRefusal arrays.now winners.now choices.now)) }
{
    if let Some(wrong) = wrong_answer(arrays, winners, choices) {
        return Err(ArrayFault::BadShape(wrong));
    }
    let game = game_of_arrays(alloc, arrays)?;
    let found = counterexample_in(alloc, &game, winners, choices)?;
    Ok(verdict_of(&found, stem, cycle))
}

/// Returns a player and a counterexample if the solution that the arrays hold does not win, or none if it wins. Refused
/// with [TaskFault::BadSolution] if they hold no solution of the game.
fn counterexample_in(
    alloc: Global,
    game: &ForwardGame,
    winners: &[u8],
    choices: &[u32],
) -> Result<Option<(Player, Lasso)>, Refusal>
    requires winners { length winners.now ≡ length game.now }
    requires choices { length choices.now ≡ length game.now }
    ensures finding { IfOk result (IsFinding game.now (solution_in winners.now choices.now)) }
    ensures solution { IsOk result → IsSolution game.now (solution_in winners.now choices.now) }
    ensures refused { IfErr result
        (IsArraysSolutionRefusal game.now (solution_in winners.now choices.now)) }
{
    let solution = solution_held(alloc, winners, choices)?;
    if !is_solution(game, &solution, winners, choices) {
        return Err(Refusal::Task(TaskFault::BadSolution));
    }
    let found = counterexample_to(alloc, game, &solution)?;
    Ok(found)
}

/// Returns the least player whose choices do not win, with a counterexample, or none if both players' choices win.
fn counterexample_to(
    alloc: Global,
    game: &ForwardGame,
    solution: &Solution,
) -> Result<Option<(Player, Lasso)>, Refusal>
    requires { IsSolution game.now solution.now }
    ensures finding { IfOk result (IsFinding game.now solution.now) }
    ensures memory { IsOkUnless result Memory }
{
    if let Some(lasso) = lost_by(alloc, game, solution, Player::Zero)? {
        return Ok(Some((Player::Zero, lasso)));
    }
    if let Some(lasso) = lost_by(alloc, game, solution, Player::One)? {
        return Ok(Some((Player::One, lasso)));
    }
    Ok(None)
}

/// Returns the verdict, and writes the places of the counterexample.
fn verdict_of(found: &Option<(Player, Lasso)>, stem: &mut [u32], cycle: &mut [u32]) -> Verdict
    ensures { IsVerdictOf found.now result stem.old stem.new cycle.old cycle.new }
{
    match found {
        None => Verdict {
            is_right: 1,
            player: 0,
            stem: 0,
            cycle: 0,
        },
        Some((player, lasso)) => {
            copy_into(lasso.stem.as_slice(), stem);
            copy_into(lasso.cycle.as_slice(), cycle);
            Verdict {
                is_right: 0,
                player: player.number(),
                stem: lasso.stem.as_slice().len() as u64,
                cycle: lasso.cycle.as_slice().len() as u64,
            }
        }
    }
}
