ghost use Rattle.std.specs.Prelude.{◌≡◌, ◌↔◌, IfOk, IfErr, IsOkUnless, IsTrue};
ghost use Rattle.omega_text.specs.Cases.{or_memory};
ghost use Rattle.omega_game_values.specs.Solution.{IsSolution, WinsAsGiven, WinsGiven};
ghost use Rattle.omega_pg.specs.solution.Refusing.{IsReadSolutionRefusal, IsSolutionRefusal};
ghost use Rattle.omega_answers_game.specs.Part.{IsPartText, IsPartTextRefusal};
ghost use Rattle.omega_answers_game.specs.Verify.{IsJudgedGame, IsJudgedGameRefusal, IsSolutionVerdict};
ghost use Rattle.omega_answers_game.specs.Verify.{IsVerifyAnswer, RefusesSolution};
ghost use Rattle.omega_io.specs.Refused.{IsRefusedOf};
ghost use Rattle.omega_answers_game.specs.private.steps.Solved.{IsSolutionJudged};
ghost use Rattle.omega_io.specs.Answer.{IsReply};
ghost use Rattle.omega_answers_game.specs.private.steps.Verdict.{verdict_answer};

pub mod explaining;
pub mod winners;

use crate::dropping::drop_game;
use crate::part::part_from;
use explaining::explained_verdict;
use omega_game::{ForwardGame, Player, Refusal, Solution, check_strategy};
use omega_io::{Answer, Exit, Refused, Which};
use omega_pg::{read_forward_game, read_solution};
use std::alloc::Global;

/// Judges the solution in `text` without solving the game. If its choices do not win and `explain` is set, the answer
/// also says why. If an identifier `from` is given, the solution is one of the part that its node reaches.
///
/// Fails with the [Refusal::Text] or [Refusal::Game] of the game's text, or else with [TaskFault::UnknownNode]; both
/// are of the file's text. Or else fails with the [Refusal::Text] or [TaskFault::BadSolution] of the solution's text.
pub fn verify_solution(
    alloc: Global,
    game: &[u8],
    from: Option<u32>,
    text: &[u8],
    explain: bool,
) -> Result<(Exit, Vec<u8>), Refused>
    ensures answer { IfOk result
        (λ made. IsVerifyAnswer game.now from text.now explain made.0 made.1.items) }
    ensures refused { IfErr result (IsRefusedOf (IsJudgedGameRefusal game.now from)
        (RefusesSolution game.now from text.now)) }
{
    match judged_game(alloc, game, from) {
        Ok(game) => {
            let made = judged_or_refused(alloc, &game, text, explain);
            drop_game(game);
            made
        }
        Err(refusal) => Err(Refused::of(Which::File, refusal)),
    }
}

/// Returns the verdict on the solution of `game` in `text`. Fails with the [Refusal::Text] or [TaskFault::BadSolution]
/// of the text, which is the input's.
fn judged_or_refused(
    alloc: Global,
    game: &ForwardGame,
    text: &[u8],
    explain: bool,
) -> Result<(Exit, Vec<u8>), Refused>
    ensures judged { IfOk result
        (λ made. IsSolutionJudged game.now text.now explain made.0 made.1.items) }
    ensures refused { IfErr result
        (IsRefusedOf (λ refusal. ⊥) (IsSolutionRefusal game.now text.now)) }
{
    match solution_verdict(alloc, game, text, explain) {
        Ok(made) => Ok(made),
        Err(refusal) => Err(Refused::of(Which::Input, refusal)),
    }
}

/// Returns the verdict on the solution of `game` in `text`. Fails with the [Refusal::Text] or [TaskFault::BadSolution]
/// of the text.
fn solution_verdict(
    alloc: Global,
    game: &ForwardGame,
    text: &[u8],
    explain: bool,
) -> Result<(Exit, Vec<u8>), Refusal>
    ensures judged { IfOk result
        (λ made. IsSolutionJudged game.now text.now explain made.0 made.1.items) }
    ensures refused { IfErr result (IsReadSolutionRefusal game.now text.now) }
{
    let solution = read_solution(alloc, game, text)?;
    verdict_on(alloc, game, &solution, explain)
}

/// Reads the game of `text`, or the part of it that the node with the identifier `from` reaches, if one is given. Fails
/// with the [Refusal::Text] or [Refusal::Game] of the text, or with [TaskFault::UnknownNode].
pub fn judged_game(alloc: Global, text: &[u8], from: Option<u32>) -> Result<ForwardGame, Refusal>
    ensures game { IfOk result (IsJudgedGame text.now from) }
    ensures refused { IfErr result (or_memory (IsJudgedGameRefusal text.now from)) }
{
    match from {
        None => read_forward_game(alloc, text),
        Some(identifier) => judged_part(alloc, text, identifier),
    }
}

/// Reads the part that the node with `identifier` reaches in the game of `text`. Fails with the [Refusal::Text] or
/// [Refusal::Game] of the text, or with [TaskFault::UnknownNode].
pub(crate) fn judged_part(
    alloc: Global,
    text: &[u8],
    identifier: u32,
) -> Result<ForwardGame, Refusal>
    ensures part { IfOk result (IsPartText text.now identifier) }
    ensures refused { IfErr result (or_memory (IsPartTextRefusal text.now identifier)) }
{
    let game = read_forward_game(alloc, text)?;
    part_from(alloc, game, identifier)
}

/// Returns the verdict on `solution`, and with `explain` also why it is `no`.
fn verdict_on(
    alloc: Global,
    game: &ForwardGame,
    solution: &Solution,
    explain: bool,
) -> Result<(Exit, Vec<u8>), Refusal>
    requires { IsSolution game.now solution.now }
    ensures verdict { IfOk result
        (λ made. IsSolutionVerdict game.now solution.now explain made.0 made.1.items) }
    ensures memory { IsOkUnless result Refusal.Memory }
{
    if explain {
        return explained_verdict(alloc, game, solution);
    }
    let is_right = wins_as_given(alloc, game, solution)?;
    verdict_answer(alloc, is_right).reply(alloc)
}

/// Returns the answer, without a reason, for a solution that is right or not.
fn verdict_answer(alloc: Global, is_right: bool) -> Answer
    ensures { result ≡ verdict_answer is_right }
{
    if is_right {
        Answer::Yes
    } else {
        Answer::no_with(Vec::new(alloc))
    }
}

/// Whether for each player the choices win from all nodes given to that player.
fn wins_as_given(alloc: Global, game: &ForwardGame, solution: &Solution) -> Result<bool, Refusal>
    requires { IsSolution game.now solution.now }
    ensures wins { IfOk result (λ answer. IsTrue answer ↔ WinsAsGiven game.now solution.now) }
    ensures memory { IsOkUnless result Refusal.Memory }
{
    if !wins_given(alloc, game, solution, Player::Zero)? {
        return Ok(false);
    }
    wins_given(alloc, game, solution, Player::One)
}

/// Whether the choices of `player` win from all nodes given to the player.
fn wins_given(
    alloc: Global,
    game: &ForwardGame,
    solution: &Solution,
    player: Player,
) -> Result<bool, Refusal>
    requires { IsSolution game.now solution.now }
    ensures wins { IfOk result (λ answer. IsTrue answer ↔ WinsGiven game.now solution.now player) }
    ensures memory { IsOkUnless result Refusal.Memory }
{
    game.keeps_limits();
    let places = solution.places_given(alloc, player)?;
    let strategy = solution.strategy(player);
    check_strategy(alloc, game, player, places.as_slice(), strategy)
}
