ghost use Rattle.std.specs.Prelude.{◌≡◌, ◌≤◌, length, map, IfOk, IsOkUnless};
ghost use Rattle.omega_measure.specs.Limits.{most_cells};
ghost use Rattle.omega_game_values.specs.Bound.{IsStrictlyFalling};
ghost use Rattle.omega_measure.specs.private.layout.Falling.{count_from};

use omega_game_values::Refusal;
use std::alloc::Global;

/// Counts the falling `numbers` that are at least `p`.
pub(crate) fn count_from(numbers: &[u32], p: u32) -> usize
    requires { IsStrictlyFalling numbers.now }
    ensures { result ≡ count_from p numbers.now }
{
    numbers.partition_point(|number| *number >= p)
}

/// Counts for each of `priorities` the falling `losing` that are at least that priority.
pub(crate) fn kept_of(
    alloc: Global,
    priorities: &[u32],
    losing: &[u32],
) -> Result<Vec<u32>, Refusal>
    requires falling { IsStrictlyFalling losing.now }
    requires few { length losing.now ≤ most_cells }
    ensures kept { IfOk result
        (λ kept. kept.items ≡ map (λ p. count_from p losing.now) priorities.now) }
    ensures memory { IsOkUnless result Refusal.Memory }
{
    let mut kept = Vec::with_capacity(alloc, priorities.len())?;
    // Neighbours often have the same priority, which is then searched for once.
    let mut sought = 0;
    let mut count = count_from(losing, sought);
    for priority in priorities {
        if *priority != sought {
            sought = *priority;
            count = count_from(losing, sought);
        }
        kept.push(count as u32)?;
    }
    Ok(kept)
}
