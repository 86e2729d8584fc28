ghost use Rattle.std.specs.Prelude.{◌≡◌, ◌+◌, ◌*◌, ◌%◌, ◌^◌, ◌<◌, IfOk, IsOkUnless, map};
ghost use Rattle.omega_game_values.specs.Bound.{IsStrictlyFalling, priorities_in_use};
ghost use Rattle.omega_game_values.specs.Game.{priorities};
ghost use Rattle.omega_answers_game.specs.Turning.{greater_count, turned_priority};

use omega_game_values::{ForwardGame, Refusal};
use std::alloc::Global;

/// Returns by place the priorities with which the greatest decides `game` as the least did: each player wins the same
/// nodes by the same strategies. A priority p becomes p % 2 + 2 g, where g is the number of different priorities in use
/// that are greater. Each is searched for among those in use.
pub fn turned_priorities(alloc: Global, game: &ForwardGame) -> Result<Vec<u32>, Refusal>
    ensures turned { IfOk result
        (λ turned. turned.items ≡ map (turned_priority (priorities game.now)) (priorities game.now)) }
    ensures memory { IsOkUnless result Refusal.Memory }
{
    game.keeps_limits();
    let falling = falling_priorities(alloc, game)?;
    let mut turned = Vec::with_capacity(alloc, game.len())?;
    for place in 0..game.len() as u32 {
        turned.push(turned_among(falling.as_slice(), game.priority(place)))?;
    }
    Ok(turned)
}

/// Returns the priorities in use, the greatest first.
fn falling_priorities(alloc: Global, game: &ForwardGame) -> Result<Vec<u32>, Refusal>
    ensures falling { IfOk result
        (λ falling. falling.items ≡ priorities_in_use (priorities game.now)) }
    ensures memory { IsOkUnless result Refusal.Memory }
{
    let counts = game.priority_counts();
    let mut falling = Vec::with_capacity(alloc, counts.len())?;
    for count in counts {
        falling.push(count.priority)?;
    }
    Ok(falling)
}

/// Returns the number with the parity of `priority` and twice the count of the `falling` ones that are greater.
fn turned_among(falling: &[u32], priority: u32) -> u32
    requires falling { IsStrictlyFalling falling.now }
    requires few { greater_count priority falling.now < 2 ^ 31 }
    ensures { result ≡ priority % 2 + 2 * greater_count priority falling.now }
{
    priority % 2 + 2 * count_greater(falling, priority) as u32
}

/// Counts the `falling` numbers that are greater than `priority`.
fn count_greater(falling: &[u32], priority: u32) -> usize
    requires { IsStrictlyFalling falling.now }
    ensures { result ≡ greater_count priority falling.now }
{
    falling.partition_point(|other| *other > priority)
}
