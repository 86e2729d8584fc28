ghost use Rattle.std.specs.Prelude.{◌≡◌, IfOk, IfErr};
ghost use Rattle.omega_answers_game.specs.Part.{IsPartFrom};
ghost use Rattle.omega_answers_game.specs.private.steps.PartRefusal.{IsPartRefusal};

use crate::dropping::drop_game;
use omega_game::{ForwardGame, Refusal, TaskFault, forward_part};
use std::alloc::Global;

/// Takes the part of `game` that the node with `identifier` reaches. The game is dropped, so that it takes no memory
/// while the part is used. Fails with [TaskFault::UnknownNode] if there is no such node.
pub fn part_from(alloc: Global, game: ForwardGame, identifier: u32) -> Result<ForwardGame, Refusal>
    ensures part { IfOk result (IsPartFrom game identifier) }
    ensures refused { IfErr result (IsPartRefusal game identifier) }
{
    let part = part_of(alloc, &game, identifier);
    drop_game(game);
    part
}

/// Returns the part of `game` that the node with `identifier` reaches. Fails with [TaskFault::UnknownNode] if there is
/// no such node.
fn part_of(alloc: Global, game: &ForwardGame, identifier: u32) -> Result<ForwardGame, Refusal>
    ensures part { IfOk result (IsPartFrom game.now identifier) }
    ensures refused { IfErr result (IsPartRefusal game.now identifier) }
{
    let place = match game.place_of(identifier) {
        Some(place) => place,
        None => return Err(Refusal::Task(TaskFault::UnknownNode)),
    };
    forward_part(alloc, game, place)
}
