//! Judges the suggestion of a search. The checker of strategies judges both players' choices at once, by an order of
//! the places that the search suggests too. No node is in the regions of both players, so accepted winners are exact.
ghost use Rattle.std.specs.Prelude.{◌≡◌, ◌<◌, ◌^◌, length, IfOk, IfSome, IsOkUnless, IsTrue};
ghost use Rattle.omega_game_values.specs.Solution.{IsExactSolution};
ghost use Rattle.omega_game_search.specs.private.judging.Judging.{ChoosesWhereWon, IsAccepted};

use crate::Suggestion;
use omega_game::{Game, Player, Refusal, Seq, Solution, Strategy, check_solution_by_order};
use omega_game_region_laws::regions_are_apart;
use std::alloc::Global;

/// Returns the solution that `suggestion` gives, if each player's choices win from all places given to that player.
pub(crate) fn winning_solution(
    alloc: Global,
    game: &Game,
    suggestion: Suggestion,
) -> Result<Option<Solution>, Refusal>
    ensures exact { IfOk result (λ found. IfSome found (IsExactSolution game.now)) }
    ensures memory { IsOkUnless result Refusal.Memory }
{
    regions_are_apart();
    game.keeps_limits();
    let Suggestion {
        winners,
        moves,
        order,
    } = suggestion;
    if winners.len() != game.len() || moves.len() != game.len() {
        return Ok(None);
    }
    let zero = strategy_of(
        alloc,
        game,
        Player::Zero,
        winners.as_slice(),
        moves.as_slice(),
    )?;
    let one = strategy_of(
        alloc,
        game,
        Player::One,
        winners.as_slice(),
        moves.as_slice(),
    )?;
    let solution = Solution {
        winners: Seq::from_vec(winners),
        zero,
        one,
    };
    if !is_accepted(alloc, game, &solution, order.as_slice())? {
        return Ok(None);
    }
    Ok(Some(solution))
}

/// Returns the choices of `player`: the moves at the places that the player owns and is given.
fn strategy_of(
    alloc: Global,
    game: &Game,
    player: Player,
    winners: &[Player],
    moves: &[u32],
) -> Result<Strategy, Refusal>
    requires winners { length winners.now ≡ length game.now }
    requires moves { length moves.now ≡ length game.now }
    ensures chosen { IfOk result
        (λ strategy. ChoosesWhereWon game.now player winners.now strategy.choice) }
    ensures memory { IsOkUnless result Refusal.Memory }
{
    game.keeps_limits();
    let mut choice = Vec::with_capacity(alloc, winners.len())?;
    for place in 0..winners.len() {
        let own = game.owner(place as u32).is_same(player) && winners[place].is_same(player);
        choice.push(if own { Some(moves[place]) } else { None })?;
    }
    Ok(Strategy {
        choice: Seq::from_vec(choice),
    })
}

/// Whether each player's choices are a strategy for which `order` shows that it wins from all nodes given to the
/// player.
fn is_accepted(
    alloc: Global,
    game: &Game,
    solution: &Solution,
    order: &[u32],
) -> Result<bool, Refusal>
    requires { length solution.now.winners ≡ length game.now }
    ensures accepted { IfOk result (λ answer. IsTrue answer → IsAccepted game.now solution.now) }
    ensures memory { IsOkUnless result Refusal.Memory }
{
    if !solution.zero.fits(game.forward_game(), Player::Zero) {
        return Ok(false);
    }
    if !solution.one.fits(game.forward_game(), Player::One) {
        return Ok(false);
    }
    check_solution_by_order(alloc, game.forward_game(), solution, order)
}
