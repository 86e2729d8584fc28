//! States that are entered from states with lesser numbers. If all states but one are, a walk leads from that one to
//! each of them.
ghost use Rattle.std.specs.Prelude.{◌≡◌, ◌<◌, length, slice_index, IfOk, IsTrue};
ghost use Rattle.omega_graph.specs.private.Judging.{AreEntered};

use std::alloc::{AllocError, Global};

/// Returns for each state below `count` whether an edge enters it from a state with a lesser number. The edges go from
/// `leaves` to `enters`. Linear.
pub(crate) fn entered_flags(
    alloc: Global,
    count: usize,
    numbers: &[u64],
    leaves: &[u32],
    enters: &[u32],
) -> Result<Vec<bool>, AllocError>
    requires { length enters.now ≡ length leaves.now }
    ensures { IfOk result (λ flags. AreEntered numbers.now leaves.now enters.now flags.items) }
{
    let mut flags = vec![in alloc; false; count]?;
    for index in 0..leaves.len() {
        let state = enters[index] as usize;
        if state < flags.len() && is_below(numbers, leaves[index], enters[index]) {
            flags[state] = true;
        }
    }
    Ok(flags)
}

/// Whether the state `one` has a lesser number than `other`.
fn is_below(numbers: &[u64], one: u32, other: u32) -> bool
    ensures { IsTrue result → slice_index numbers.now one < slice_index numbers.now other }
{
    match (numbers.get(one as usize), numbers.get(other as usize)) {
        (Some(lesser), Some(greater)) => *lesser < *greater,
        _ => false,
    }
}
