ghost use Rattle.std.specs.Prelude.{◌≡◌, IfErr, IfOk, IsOkUnless};
ghost use Rattle.omega_answers_game.specs.Verify.{IsJudgedGameRefusal, RefusesSolution};
ghost use Rattle.omega_io.specs.Refused.{IsRefusedOf};
ghost use Rattle.omega_game_values.specs.Solution.{IsSolution};
ghost use Rattle.omega_pg.specs.solution.Refusing.{IsReadSolutionRefusal};
ghost use Rattle.omega_answers_walk.specs.Verify.{IsNamedVerdict, IsNamedVerifyAnswer};
ghost use Rattle.omega_answers_walk.specs.private.Judged.{IsNamedJudged};

use crate::explanation::explained_no;
use omega_answers_game::{judged_game, lost_by};
use omega_game::{ForwardGame, Player, Solution};
use omega_io::{Answer, Exit, Refused, Which};
use omega_pg::read_solution;
use omega_text::Refusal;
use std::alloc::Global;

/// Judges the solution in `text` as [verify_solution] of `omega_answers_game` does, and explains a `no`. The nodes of
/// the explanation have their names after their identifiers.
///
/// Fails as that does: with the [Refusal::Text] or [Refusal::Game] of the game's text, or else with
/// [TaskFault::UnknownNode]; both are of the file's text. Or else fails with the [Refusal::Text] or
/// [TaskFault::BadSolution] of the solution's text.
pub fn verify_with_names(
    alloc: Global,
    game: &[u8],
    from: Option<u32>,
    text: &[u8],
) -> Result<(Exit, Vec<u8>), Refused>
    ensures answer { IfOk result
        (λ made. IsNamedVerifyAnswer game.now from text.now made.0 made.1.items) }
    ensures refused { IfErr result (IsRefusedOf (IsJudgedGameRefusal game.now from)
        (RefusesSolution game.now from text.now)) }
{
    match judged_game(alloc, game, from) {
        Ok(game) => match solution_verdict(alloc, &game, text) {
            Ok(made) => Ok(made),
            Err(refusal) => Err(Refused::of(Which::Input, refusal)),
        },
        Err(refusal) => Err(Refused::of(Which::File, refusal)),
    }
}

/// Returns the verdict on the solution of `game` in `text`. Fails with the [Refusal::Text] or [TaskFault::BadSolution]
/// of the text.
fn solution_verdict(
    alloc: Global,
    game: &ForwardGame,
    text: &[u8],
) -> Result<(Exit, Vec<u8>), Refusal>
    ensures judged { IfOk result (λ made. IsNamedJudged game.now text.now made.0 made.1.items) }
    ensures refused { IfErr result (IsReadSolutionRefusal game.now text.now) }
{
    let solution = read_solution(alloc, game, text)?;
    explained_verdict(alloc, game, &solution)
}

/// Returns the verdict on `solution`. A `no` is explained for the least player whose choices do not win as given.
fn explained_verdict(
    alloc: Global,
    game: &ForwardGame,
    solution: &Solution,
) -> Result<(Exit, Vec<u8>), Refusal>
    requires { IsSolution game.now solution.now }
    ensures verdict { IfOk result (λ made. IsNamedVerdict game.now solution.now made.0 made.1.items) }
    ensures memory { IsOkUnless result Refusal.Memory }
{
    if let Some(lasso) = lost_by(alloc, game, solution, Player::Zero)? {
        return explained_no(alloc, game, Player::Zero, &lasso);
    }
    if let Some(lasso) = lost_by(alloc, game, solution, Player::One)? {
        return explained_no(alloc, game, Player::One, &lasso);
    }
    Answer::Yes.reply(alloc)
}
