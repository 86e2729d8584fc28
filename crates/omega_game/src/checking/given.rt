//! Both players' strategies judged at once along one order, each at the places given to its player.
ghost use Rattle.std.specs.Prelude.{◌≡◌, ◌<◌, length, IfOk, IsTrue};
ghost use Rattle.omega_game_values.specs.declared.player.Player.{Player};
ghost use Rattle.omega_game_values.specs.Solution.{WinsAsGiven, choices_of};
ghost use Rattle.omega_game_values.specs.Winning.{IsStrategy};
ghost use Rattle.omega_game.specs.private.checking.Ordering.{AreEnds, StandsAsGiven};

use crate::checking::ordering::{ends_of, is_in_order, numbers_in, ranks_along};
use omega_game_reaching::edges_left;
use omega_game_values::{ForwardGame, Solution};
use std::alloc::{AllocError, Global};

/// Whether an order of the places shows that each player's choices win from all places given to the player. No edge
/// that they leave possible may lead to a place given to the other. Linear in nodes and edges.
pub(crate) fn shows_given(
    alloc: Global,
    game: &ForwardGame,
    solution: &Solution,
    order: &[u32],
) -> Result<bool, AllocError>
    requires winners { length solution.now.winners ≡ length game.now }
    requires strategies { (player : Player)
        → IsStrategy game.now player (choices_of solution.now player) }
    ensures wins { IfOk result (λ answer. IsTrue answer → WinsAsGiven game.now solution.now) }
{
    if order.len() >= u32::MAX as usize {
        return Ok(false);
    }
    let numbers = numbers_in(alloc, game.len(), order)?;
    let ranks = ranks_along(alloc, game, order)?;
    let ends = ends_of(alloc, ranks.as_slice())?;
    let shown = all_stand_as_given(
        game,
        solution,
        numbers.as_slice(),
        ranks.as_slice(),
        ends.as_slice(),
    );
    Ok(shown)
}

/// Whether each place is in the order as `stands_as_given` requires.
fn all_stand_as_given(
    game: &ForwardGame,
    solution: &Solution,
    numbers: &[u32],
    ranks: &[u32],
    ends: &[u32],
) -> bool
    requires winners { length solution.now.winners ≡ length game.now }
    requires strategies { (player : Player)
        → IsStrategy game.now player (choices_of solution.now player) }
    requires numbers { length numbers.now ≡ length game.now }
    requires even { length ends.now ≡ length ranks.now }
    requires ends { AreEnds ranks.now ends.now }
    ensures { IsTrue result → WinsAsGiven game.now solution.now }
{
    game.keeps_limits();
    for place in 0..game.len() as u32 {
        if !stands_as_given(game, solution, numbers, ranks, ends, place) {
            return false;
        }
    }
    true
}

/// Whether a place is in the order at a position of its priority, and each edge that its winner leaves possible is in
/// order for the winner and leads to a place of that winner.
fn stands_as_given(
    game: &ForwardGame,
    solution: &Solution,
    numbers: &[u32],
    ranks: &[u32],
    ends: &[u32],
    place: u32,
) -> bool
    requires place { place < length game.now }
    requires winners { length solution.now.winners ≡ length game.now }
    requires strategies { (player : Player)
        → IsStrategy game.now player (choices_of solution.now player) }
    requires numbers { length numbers.now ≡ length game.now }
    requires ends { length ends.now ≡ length ranks.now }
    ensures { IsTrue result
        → StandsAsGiven game.now solution.now numbers.now ranks.now ends.now place }
{
    game.keeps_limits();
    let number = numbers[place as usize] as usize;
    if number >= ranks.len() || ranks[number] != game.priority(place) {
        return false;
    }
    let winners = solution.winners.as_slice();
    let winner = winners[place as usize];
    let choices = solution.strategy(winner).choice.as_slice();
    for next in edges_left(game, choices, place) {
        if !winners[*next as usize].is_same(winner)
            || !is_in_order(game, winner, numbers, ends, place, *next)
        {
            return false;
        }
    }
    true
}
