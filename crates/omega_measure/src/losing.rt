ghost use Rattle.std.specs.Prelude.{◌≡◌, IfOk, IsOkUnless};
ghost use Rattle.omega_game_values.specs.Bound.{losing_priorities};
ghost use Rattle.omega_game_values.specs.Game.{priorities};
ghost use Rattle.omega_lift_laws.specs.Least.{limits_of};
ghost use Rattle.omega_game_values.specs.Bound.{IsStrictlyFalling};

use omega_game_values::{Game, Player, Refusal};
use std::alloc::Global;

/// Returns the losing priorities in use, the greatest first, and the number of nodes with each.
pub(crate) fn losing_of(
    alloc: Global,
    game: &Game,
    player: Player,
) -> Result<(Vec<u32>, Vec<u32>), Refusal>
    ensures losing { IfOk result
        (λ found. found.0.items ≡ losing_priorities player (priorities game.now)) }
    ensures falling { IfOk result (λ found. IsStrictlyFalling found.0.items) }
    ensures limits { IfOk result (λ found. found.1.items ≡ limits_of player (priorities game.now)) }
    ensures memory { IsOkUnless result Refusal.Memory }
{
    let mut losing = Vec::new(alloc);
    let mut limits = Vec::new(alloc);
    let counts = game.priority_counts();
    for count in counts {
        if player.loses(count.priority) {
            losing.push(count.priority)?;
            limits.push(count.nodes)?;
        }
    }
    Ok((losing, limits))
}
