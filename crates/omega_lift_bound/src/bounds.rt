ghost use Rattle.std.specs.Prelude.{◌*◌, map};
ghost use Rattle.omega_game_values.specs.Bound.{bound_of, product, GivesU128};
ghost use Rattle.omega_lift_bound.specs.private.Factors.{factor_of};
ghost use Rattle.omega_game_values.specs.Game.{priorities};

use omega_game_values::{ForwardGame, Player, PriorityCount};

/// Returns the most lifts of a run for the player (Jurdziński 2000): the number of nodes times a product over the
/// priorities in use that lose for the player. The factor of a priority is one more than the number of nodes that have
/// it. Returns `None` if the bound is above the greatest `u128`. Takes time in the priorities in use, and no memory.
pub fn bound(game: &ForwardGame, player: Player) -> Option<u128>
    ensures { GivesU128 result (bound_of player (priorities game.now)) }
{
    product_with_factors(game.len() as u128, game.priority_counts(), player)
}

/// Multiplies a number with the factors of the counted priorities; `None` if the product is above the greatest `u128`.
fn product_with_factors(number: u128, counts: &[PriorityCount], player: Player) -> Option<u128>
    ensures { GivesU128 result (number * product (map (factor_of player) counts.now)) }
{
    let mut multiple = number;
    for count in counts {
        if player.loses(count.priority) {
            multiple = multiple.checked_mul(count.nodes as u128 + 1)?;
        }
    }
    Some(multiple)
}
