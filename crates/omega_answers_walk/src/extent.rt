//! The extent of a game that is drawn.
ghost use Rattle.std.specs.Prelude.{◌≡◌, IfErr, IfOk};
ghost use Rattle.omega_answers_game.specs.Draw.{IsExtent};
ghost use Rattle.omega_game_dot.specs.Extent.{IsPlaced};
ghost use Rattle.omega_answers_walk.specs.private.Drawn.{IsUnknownFrom};

use omega_game::{ForwardGame, TaskFault};
use omega_game_dot::Extent;
use omega_text::Refusal;

/// Returns the extent of `game` to be drawn. Fails with [TaskFault::UnknownNode] alone.
pub(crate) fn extent_of(
    game: &ForwardGame,
    from: Option<u32>,
    depth: Option<u32>,
) -> Result<Extent, Refusal>
    ensures asked { IfOk result (IsExtent game.now from depth) }
    ensures placed { IfOk result (IsPlaced game.now) }
    ensures refused { IfErr result (IsUnknownFrom game.now from) }
{
    let Some(identifier) = from else {
        return Ok(Extent::Whole);
    };
    match game.place_of(identifier) {
        Some(place) => Ok(Extent::Part { place, depth }),
        None => Err(Refusal::Task(TaskFault::UnknownNode)),
    }
}
