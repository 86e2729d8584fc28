//! The edges that leave each state.

ghost use Rattle.std.specs.Prelude.{◌≡◌, ◌^◌, ◌<◌, ◌++◌, ◌∷◌, [], All, IfOk, IsOkUnless};
ghost use Rattle.std.specs.Prelude.{OnOk, length, replicate, set, slice_index_or};
ghost use Rattle.omega_synth_game.specs.private.Making.{AreLeaving};

use omega_synth_rounds::RoundEdge;
use omega_text::{Numbers, Refusal};
use std::alloc::Global;

/// Returns for each of `count` states the numbers of the `edges` that leave it, in rising order. Linear in the states
/// and the edges.
pub fn leaving_edges(
    alloc: Global,
    count: u32,
    edges: &[RoundEdge],
) -> Result<Vec<Numbers>, Refusal>
    requires sources { All (λ edge. edge.source < count) edges.now }
    requires few { length edges.now < 2 ^ 32 }
    ensures leaving { IfOk result
        (λ lists. AreLeaving edges.now count (length edges.now) lists.items) }
    ensures memory { IsOkUnless result Refusal.Memory }
{
    let mut lists = empty_lists(alloc, count)?;
    for number in 0..edges.len() {
        let source = edges[number].source;
        add_to(alloc, &mut lists, source, number as u32)?;
    }
    Ok(lists)
}

/// Returns `count` empty lists.
fn empty_lists(alloc: Global, count: u32) -> Result<Vec<Numbers>, Refusal>
    ensures lists { IfOk result (λ lists. lists.items ≡ replicate count []) }
    ensures memory { IsOkUnless result Refusal.Memory }
{
    let mut lists = Vec::new(alloc);
    for _state in 0..count {
        lists.push(Numbers::new())?;
    }
    Ok(lists)
}

/// Appends `number` to the list at the place `at`.
fn add_to(alloc: Global, lists: &mut Vec<Numbers>, at: u32, number: u32) -> Result<(), Refusal>
    requires { at < length lists.old.items }
    ensures added { OnOk result (lists.new.items
        ≡ set lists.old.items at (slice_index_or lists.old.items at [] ++ number ∷ [])) }
    ensures memory { IsOkUnless result Refusal.Memory }
{
    lists[at as usize].push(alloc, number)?;
    Ok(())
}
