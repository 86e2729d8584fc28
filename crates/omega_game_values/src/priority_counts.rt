ghost use Rattle.std.specs.Prelude.{◌≡◌, ◌↔◌, ℕ, ◌<◌, ◌^◌, length, IfOk, IsTrue};
ghost use Rattle.omega_game_values.specs.Bound.{occurrences, priority_counts};
ghost use Rattle.omega_game_values.specs.private.priorities.Tally.{counted_nodes, counted_priorities};
ghost use Rattle.omega_game_values.specs.private.priorities.Tally.{AreTallied, EndsIn, IsFalling};

use std::alloc::{AllocError, Global};

/// A priority in use, with the number of nodes that have it.
#[derive(Clone, Copy, Debug, PartialEq, Eq)]
pub struct PriorityCount {
    /// The priority.
    pub priority: u32,
    /// The number of nodes that have it, at least 1.
    pub nodes: u32,
}

/// Returns each priority in use, the greatest first, with the number of nodes that have it.
pub(crate) fn counts_of(alloc: Global, priorities: &[u32]) -> Result<Vec<PriorityCount>, AllocError>
    requires { length priorities.now < 2 ^ 32 }
    ensures { IfOk result (λ counts. counts.items ≡ priority_counts priorities.now) }
{
    let sorted = falling_numbers(alloc, priorities)?;
    let counts = counts_along(alloc, &sorted)?;
    Ok(counts)
}

/// Sorts the numbers, the greatest first.
fn falling_numbers(alloc: Global, numbers: &[u32]) -> Result<Vec<u32>, AllocError>
    ensures falling { IfOk result (λ sorted. IsFalling sorted.items) }
    ensures times { IfOk result
        (λ sorted. (q : ℕ) → occurrences sorted.items q ≡ occurrences numbers.now q) }
    ensures len { IfOk result (λ sorted. length sorted.items ≡ length numbers.now) }
{
    let mut sorted = Vec::from_slice(alloc, numbers)?;
    sorted.sort_unstable();
    sorted.reverse();
    Ok(sorted)
}

/// Counts how often the list has each of its numbers, which fall: one entry for each number.
fn counts_along(alloc: Global, numbers: &[u32]) -> Result<Vec<PriorityCount>, AllocError>
    requires falling { IsFalling numbers.now }
    requires few { length numbers.now < 2 ^ 32 }
    ensures { IfOk result
        (λ counts. AreTallied numbers.now (counted_priorities counts.items) (counted_nodes counts.items)) }
{
    let mut counts = Vec::new(alloc);
    for number in numbers {
        if ends_in(&counts, *number) {
            let last = counts.len() - 1;
            counts[last].nodes += 1;
        } else {
            counts.push(PriorityCount {
                priority: *number,
                nodes: 1,
            })?;
        }
    }
    Ok(counts)
}

/// Whether the number is the one that is counted last.
fn ends_in(counts: &[PriorityCount], number: u32) -> bool
    ensures { IsTrue result ↔ EndsIn counts.now number }
{
    match counts {
        [.., last] => last.priority == number,
        [] => false,
    }
}
