ghost use Rattle.std.specs.Prelude.{◌≡◌, IfErr, IfOk};
ghost use Rattle.omega_text.specs.Cases.{or_memory};
ghost use Rattle.omega_answers_game.specs.Verify.{IsJudgedGameRefusal};
ghost use Rattle.omega_game_dot.specs.Extent.{IsPlaced};
ghost use Rattle.omega_io.specs.Refused.{IsRefusedOf};
ghost use Rattle.omega_answers_walk.specs.Draw.{IsWalkDrawingAnswer, RefusesWalk};
ghost use Rattle.omega_answers_walk.specs.Walk.{IsWalkRefusal};
ghost use Rattle.omega_answers_walk.specs.private.Drawn.{IsPartDrawn, IsUnknownFrom, IsWalkDrawn};

use crate::extent::extent_of;
use crate::walk::walk_in;
use omega_answers_game::judged_game;
use omega_game::ForwardGame;
use omega_game_dot::{Extent, draw_walk};
use omega_io::{Refused, Which};
use omega_text::Refusal;
use std::alloc::Global;

/// Returns the drawing of the game of `text` with the walk of the text `walk`, as `verify --explain` writes it: of the
/// whole game, or if an identifier `from` is given, of the part that its node reaches. If a `depth` is given too, only
/// what it reaches by at most `depth` edges is drawn. If `legend` is set, the drawing has a legend.
///
/// Fails with the [Refusal::Text] or [Refusal::Game] of the game's text, or else with [TaskFault::UnknownNode]; both
/// are of the input's text. Or else fails with the [Refusal::Text] of the walk's text, or with [TaskFault::BadSolution]
/// if that is no walk of the game or of the part.
pub fn draw_walk_text(
    alloc: Global,
    text: &[u8],
    walk: &[u8],
    from: Option<u32>,
    depth: Option<u32>,
    legend: bool,
) -> Result<Vec<u8>, Refused>
    ensures answer { IfOk result
        (λ output. IsWalkDrawingAnswer text.now walk.now from depth legend output.items) }
    ensures refused { IfErr result
        (IsRefusedOf (RefusesWalk text.now from walk.now) (IsJudgedGameRefusal text.now from)) }
{
    match judged_game(alloc, text, from) {
        Ok(game) => draw_with(alloc, &game, walk, from, depth, legend),
        Err(refusal) => Err(Refused::of(Which::Input, refusal)),
    }
}

/// Returns the drawing of the extent of `game` with the walk of the text `walk`. Fails with [TaskFault::UnknownNode] of
/// the game, or else with the [Refusal::Text] or [TaskFault::BadSolution] of the walk.
fn draw_with(
    alloc: Global,
    game: &ForwardGame,
    walk: &[u8],
    from: Option<u32>,
    depth: Option<u32>,
    legend: bool,
) -> Result<Vec<u8>, Refused>
    ensures drawn { IfOk result
        (λ output. IsPartDrawn game.now from depth walk.now legend output.items) }
    ensures refused { IfErr result
        (IsRefusedOf (IsWalkRefusal game.now walk.now) (IsUnknownFrom game.now from)) }
{
    match extent_of(game, from, depth) {
        Ok(extent) => match draw_extent(alloc, game, extent, walk, legend) {
            Ok(made) => Ok(made),
            Err(refusal) => Err(Refused::of(Which::File, refusal)),
        },
        Err(refusal) => Err(Refused::of(Which::Input, refusal)),
    }
}

/// Returns the drawing of the `extent` of `game` with the walk of the text `walk`. Fails with the [Refusal::Text] or
/// [TaskFault::BadSolution] of the text.
fn draw_extent(
    alloc: Global,
    game: &ForwardGame,
    extent: Extent,
    walk: &[u8],
    legend: bool,
) -> Result<Vec<u8>, Refusal>
    requires { IsPlaced game.now extent }
    ensures drawn { IfOk result (λ output. IsWalkDrawn game.now extent walk.now legend output.items) }
    ensures refused { IfErr result (or_memory (IsWalkRefusal game.now walk.now)) }
{
    let lasso = walk_in(alloc, game, walk)?;
    draw_walk(
        alloc,
        game,
        extent,
        lasso.stem.as_slice(),
        lasso.cycle.as_slice(),
        legend,
    )
}
