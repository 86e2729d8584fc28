ghost use Rattle.std.specs.Prelude.{IfOk, IsOkUnless};
ghost use Rattle.omega_game_dot.specs.Extent.{AreDrawn, IsPlaced};

use crate::near::places_near;
use omega_game_values::{ForwardGame, Refusal};
use std::alloc::Global;

/// The nodes of a game that are drawn.
#[derive(Clone, Copy, Debug, PartialEq, Eq)]
pub enum Extent {
    /// All of them.
    Whole,
    /// Those that `place` reaches, itself included. With a `depth` they are reached by at most that number of edges.
    Part { place: u32, depth: Option<u32> },
}

/// Flags the places of `extent`.
pub(crate) fn drawn_places(
    alloc: Global,
    game: &ForwardGame,
    extent: Extent,
) -> Result<Vec<bool>, Refusal>
    requires { IsPlaced game.now extent }
    ensures drawn { IfOk result (λ drawn. AreDrawn game.now extent drawn.items) }
    ensures memory { IsOkUnless result Refusal.Memory }
{
    match extent {
        Extent::Whole => Ok(vec![in alloc; true; game.len()]?),
        Extent::Part { place, depth } => Ok(places_near(alloc, game, place, depth)?),
    }
}
