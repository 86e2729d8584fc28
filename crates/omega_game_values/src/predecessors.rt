ghost use Rattle.std.specs.Prelude.{◌≡◌, ℕ, ◌<◌, ◌^◌, length, sum, sum_by, take, slice_index, All, IfOk};
ghost use Rattle.omega_game_values.specs.private.layout.Predecessors.{all_predecessors_in};
ghost use Rattle.omega_game_values.specs.private.layout.Predecessors.{AreCounted, AreStartsOf};

use crate::lists::Lists;
use std::alloc::{AllocError, Global};

/// Returns the predecessors of each place, rising, one for each listed edge, by counting. Keeps one number for each
/// place beside them.
pub(crate) fn predecessors_of(
    alloc: Global,
    successors: &Lists<u32>,
) -> Result<Lists<u32>, AllocError>
    requires few { length successors.now < 2 ^ 32 }
    requires few_edges { sum_by (λ list. length list) successors.now < 2 ^ 32 }
    requires within { All (λ list. All (λ w. w < length successors.now) list) successors.now }
    ensures { IfOk result (λ lists. lists ≡ all_predecessors_in successors.now) }
{
    let starts = starts_of(alloc, successors)?;
    let mut cursors = Vec::from_slice(alloc, starts.as_slice())?;
    let mut sources = vec![in alloc; 0u32; successors.total()]?;
    for v in 0..successors.len() {
        for w in successors.list(v) {
            let cursor = cursors[*w as usize];
            sources[cursor as usize] = v as u32;
            cursors[*w as usize] = cursor + 1;
        }
    }
    Ok(Lists::from_parts(starts, sources))
}

/// Returns the start of each place's predecessors. The starts take the room of the counts that they are sums of.
fn starts_of(alloc: Global, successors: &Lists<u32>) -> Result<Vec<u32>, AllocError>
    requires few_edges { sum_by (λ list. length list) successors.now < 2 ^ 32 }
    requires within { All (λ list. All (λ w. w < length successors.now) list) successors.now }
    ensures { IfOk result (λ starts. AreStartsOf starts.items successors.now) }
{
    let mut counts = counts_of(alloc, successors)?;
    sum_before(&mut counts);
    Ok(counts)
}

/// Replaces each number by the sum of those before it.
fn sum_before(numbers: &mut Vec<u32>)
    requires { sum numbers.old.items < 2 ^ 32 }
    ensures count { length numbers.new.items ≡ length numbers.old.items }
    ensures sums { (k : ℕ) → k < length numbers.old.items
        → slice_index numbers.new.items k ≡ sum (take k numbers.old.items) }
{
    let mut before = 0;
    for index in 0..numbers.len() {
        let number = numbers[index];
        numbers[index] = before;
        before += number;
    }
}

/// Counts the predecessors of each place.
fn counts_of(alloc: Global, successors: &Lists<u32>) -> Result<Vec<u32>, AllocError>
    requires few_edges { sum_by (λ list. length list) successors.now < 2 ^ 32 }
    requires within { All (λ list. All (λ w. w < length successors.now) list) successors.now }
    ensures { IfOk result
        (λ counts. AreCounted successors.now (length successors.now) 0 counts.items) }
{
    let mut counts = vec![in alloc; 0u32; successors.len()]?;
    for v in 0..successors.len() {
        for w in successors.list(v) {
            counts[*w as usize] += 1;
        }
    }
    Ok(counts)
}
