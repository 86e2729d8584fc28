ghost use Rattle.std.specs.Prelude.{◌≡◌, IfOk, IfErr};
ghost use Rattle.omega_io.specs.Refused.{IsRefusedOf};
ghost use Rattle.omega_text.specs.Cases.{or_memory};
ghost use Rattle.omega_game_dot.specs.Extent.{IsPlaced};
ghost use Rattle.omega_pg.specs.solution.Refusing.{IsReadSolutionRefusal};
ghost use Rattle.omega_answers_game.specs.Draw.{IsExtent, IsGameDrawingAnswer, IsSolutionDrawingAnswer};
ghost use Rattle.omega_answers_game.specs.Verify.{IsJudgedGameRefusal, RefusesSolution};
ghost use Rattle.omega_answers_game.specs.private.steps.Drawn.{IsDrawnRefusal, IsGameDrawn, IsSolutionDrawn};
ghost use Rattle.omega_answers_game.specs.private.steps.Drawn.{IsUnknownFrom, IsSolvedDrawn};

use crate::dropping::drop_game;
use crate::verify::judged_game;
use omega_game::{ForwardGame, Refusal, TaskFault};
use omega_game_dot::{Extent, draw_game, draw_solution};
use omega_io::{Refused, Which};
use omega_pg::{read_forward_game, read_solution};
use std::alloc::Global;

/// Returns the drawing of the game of `text`. If an identifier `from` is given, only the part that its node reaches is
/// drawn, and if a `depth` is given too, only what it reaches by at most `depth` edges. Fails with the [Refusal::Text]
/// or [Refusal::Game] of the text, or with [TaskFault::UnknownNode].
pub fn draw_game_text(
    alloc: Global,
    text: &[u8],
    from: Option<u32>,
    depth: Option<u32>,
) -> Result<Vec<u8>, Refusal>
    ensures answer { IfOk result (λ output. IsGameDrawingAnswer text.now from depth output.items) }
    ensures refused { IfErr result (or_memory (IsJudgedGameRefusal text.now from)) }
{
    let game = read_forward_game(alloc, text)?;
    let drawn = draw_alone(alloc, &game, from, depth);
    drop_game(game);
    drawn
}

/// Returns the drawing of the extent of `game`, without a solution. Fails with [TaskFault::UnknownNode].
fn draw_alone(
    alloc: Global,
    game: &ForwardGame,
    from: Option<u32>,
    depth: Option<u32>,
) -> Result<Vec<u8>, Refusal>
    ensures drawn { IfOk result (λ output. IsGameDrawn game.now from depth output.items) }
    ensures refused { IfErr result (or_memory (IsUnknownFrom game.now from)) }
{
    let extent = extent_of(game, from, depth)?;
    draw_game(alloc, game, extent)
}

/// Returns the drawing of the game of `text`, as `draw_game_text` does, with the solution in `solution`: of the whole
/// game, or if an identifier `from` is given, of the part that its node reaches. If `legend` is set, the drawing has a
/// legend.
///
/// Fails with the [Refusal::Text] or [Refusal::Game] of the game's text, or else with [TaskFault::UnknownNode]; both
/// are of the input's text. Or else fails with the [Refusal::Text] or [TaskFault::BadSolution] of the solution's text.
pub fn draw_solution_text(
    alloc: Global,
    text: &[u8],
    solution: &[u8],
    from: Option<u32>,
    depth: Option<u32>,
    legend: bool,
) -> Result<Vec<u8>, Refused>
    ensures answer { IfOk result
        (λ output. IsSolutionDrawingAnswer text.now solution.now from depth legend output.items) }
    ensures refused { IfErr result (IsRefusedOf (RefusesSolution text.now from solution.now)
        (IsJudgedGameRefusal text.now from)) }
{
    match judged_game(alloc, text, from) {
        Ok(game) => {
            let drawn = draw_with(alloc, &game, solution, from, depth, legend);
            drop_game(game);
            drawn
        }
        Err(refusal) => Err(Refused::of(Which::Input, refusal)),
    }
}

/// Returns the drawing of the extent of `game` with the solution of `game` in the text `solution`. Fails with
/// [TaskFault::UnknownNode] of the game, or else with the [Refusal::Text] or [TaskFault::BadSolution] of the solution.
fn draw_with(
    alloc: Global,
    game: &ForwardGame,
    solution: &[u8],
    from: Option<u32>,
    depth: Option<u32>,
    legend: bool,
) -> Result<Vec<u8>, Refused>
    ensures drawn { IfOk result
        (λ output. IsSolvedDrawn game.now from depth solution.now legend output.items) }
    ensures refused { IfErr result
        (IsRefusedOf (IsDrawnRefusal game.now from depth solution.now) (IsUnknownFrom game.now from)) }
{
    match extent_of(game, from, depth) {
        Ok(extent) => match draw_solved(alloc, game, extent, solution, legend) {
            Ok(made) => Ok(made),
            Err(refusal) => Err(Refused::of(Which::File, refusal)),
        },
        Err(refusal) => Err(Refused::of(Which::Input, refusal)),
    }
}

/// Returns the drawing of the `extent` of `game` with the solution in `text`. Fails with the [Refusal::Text] or
/// [TaskFault::BadSolution] of the text.
fn draw_solved(
    alloc: Global,
    game: &ForwardGame,
    extent: Extent,
    text: &[u8],
    legend: bool,
) -> Result<Vec<u8>, Refusal>
    requires { IsPlaced game.now extent }
    ensures drawn { IfOk result
        (λ output. IsSolutionDrawn game.now extent text.now legend output.items) }
    ensures refused { IfErr result (IsReadSolutionRefusal game.now text.now) }
{
    let solution = read_solution(alloc, game, text)?;
    draw_solution(alloc, game, extent, &solution, legend)
}

/// Returns the extent of `game` to be drawn. Fails with [TaskFault::UnknownNode] alone.
fn extent_of(game: &ForwardGame, from: Option<u32>, depth: Option<u32>) -> Result<Extent, Refusal>
    ensures asked { IfOk result (IsExtent game.now from depth) }
    ensures placed { IfOk result (IsPlaced game.now) }
    ensures refused { IfErr result (IsUnknownFrom game.now from) }
{
    let Some(identifier) = from else {
        return Ok(Extent::Whole);
    };
    match game.place_of(identifier) {
        Some(place) => Ok(Extent::Part { place, depth }),
        None => Err(Refusal::Task(TaskFault::UnknownNode)),
    }
}
