//! A game is built node by node, and solved for both players.
ghost use Rattle.std.specs.Prelude.{◌<◌, length, IfOk, OnOk};
ghost use Rattle.omega_solve.specs.Headline.{IsExact};

use omega_game::{ForwardGame, GameBuilder, Player, Refusal};
use omega_solve::MOST_LIFTS;
use omega_solve::budget::{Found, NoObserver, Reordered};
use std::alloc::Global;

/// Returns the game of `examples/three_nodes.pg`: player 0 moves from node 0 to node 1 or 2, and player 1 back to node
/// 0.
pub fn three_nodes(alloc: Global) -> Result<ForwardGame, Refusal> {
    let mut nodes = GameBuilder::new(alloc);
    add_three(&mut nodes)?;
    nodes.finish_forward()
}

fn add_three(nodes: &mut GameBuilder) -> Result<(), Refusal>
    ensures some { OnOk result (0 < length nodes.new) }
{
    // Identifier, priority, owner, and the first successor.
    nodes.add_node(0, 0, Player::Zero, 1)?;
    nodes.add_successor(2)?;
    nodes.add_node(1, 1, Player::One, 0)?;
    nodes.add_node(2, 2, Player::One, 0)
}

/// Returns the nodes that a player wins, and the player's choices, with as many lifts as it takes.
pub fn solved_for(alloc: Global, game: &ForwardGame, player: Player) -> Result<Found, Refusal>
    ensures exact { IfOk result (λ found. IsExact game.now player found.won.items found.choice.items) }
{
    let reordered = Reordered::of(alloc, game)?;
    reordered.solve(alloc, player, MOST_LIFTS, &NoObserver, &mut ())
}

#[cfg(test)]
mod tests {
    use super::*;
    use std::test::Fail;

    fn found_for(alloc: Global, player: Player) -> Result<Found, Refusal> {
        let game = three_nodes(alloc)?;
        solved_for(alloc, &game, player)
    }

    #[test]
    fn player_zero_wins_all_three(rt: HostRuntime) -> Result<(), Fail> {
        let found = found_for(rt.alloc(), Player::Zero)?;
        assert_eq!(rt; found.won.as_slice(), [true, true, true].as_slice());
        assert_eq!(rt; found.choice.as_slice(), [Some(2), None, None].as_slice());
        Ok(())
    }

    #[test]
    fn player_one_wins_none(rt: HostRuntime) -> Result<(), Fail> {
        let found = found_for(rt.alloc(), Player::One)?;
        assert_eq!(rt; found.won.as_slice(), [false, false, false].as_slice());
        Ok(())
    }
}
