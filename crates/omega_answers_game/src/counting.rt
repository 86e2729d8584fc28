//! How many components there are, and how many places the largest has.
ghost use Rattle.std.specs.Prelude.{◌≡◌, ◌<◌, ◌≤◌, ◌^◌, All, IfOk, IsOkUnless, length};
ghost use Rattle.omega_answers_game.specs.Components.{ComponentsAreUnique, HasComponents};
ghost use Rattle.omega_answers_game.specs.Components.{IsLargest, component_count};
ghost use Rattle.omega_answers_game.specs.private.Sizes.{AreSizes};

use crate::leaders::leaders_of;
use omega_game_values::{ForwardGame, Refusal};
use std::alloc::{AllocError, Global};

/// The strongly connected components of a game's graph, counted.
#[derive(Clone, Copy, Debug)]
pub struct Components {
    /// How many there are.
    pub count: u32,
    /// How many nodes the largest has.
    pub largest: u32,
}

/// Returns the number of strongly connected components of the game's graph, and the number of nodes of the largest.
/// Each node is in one component: nodes are in the same one if walks lead from each to the other, so a node that is on
/// no cycle is alone in its own. Returns [`Refusal::Memory`] if a request for memory is refused.
///
/// Tarjan's algorithm (1972) finds the components, and the time is linear in the nodes and edges, if a judge confirms
/// what it found, as in all tests. Else two searches are made for each edge.
pub fn count_components(alloc: Global, game: &ForwardGame) -> Result<Components, Refusal>
    ensures components { IfOk result (λ found. HasComponents game.now found.count found.largest) }
    ensures memory { IsOkUnless result Refusal.Memory }
{
    game.keeps_limits();
    let leaders = leaders_of(alloc, game)?;
    let leaders = leaders.as_slice();
    let sizes = sizes_of(alloc, leaders)?;
    let largest = largest_size(leaders, sizes.as_slice());
    Ok(Components {
        count: leader_count(leaders),
        largest,
    })
}

/// Proves that a game has one number of components, and one of places in the largest.
pub fn components_are_unique()
    ensures { ComponentsAreUnique }
{}

/// Returns the number of places that are their own leaders.
fn leader_count(leaders: &[u32]) -> u32
    requires few { length leaders.now < 2 ^ 32 }
    ensures { result ≡ component_count leaders.now }
{
    let mut count = 0;
    for place in 0..leaders.len() {
        if leaders[place] as usize == place {
            count += 1;
        }
    }
    count
}

/// Returns by place how many places have it as their leader.
fn sizes_of(alloc: Global, leaders: &[u32]) -> Result<Vec<u32>, AllocError>
    requires few { length leaders.now < 2 ^ 32 }
    requires inside { All (λ leader. leader < length leaders.now) leaders.now }
    ensures { IfOk result (λ sizes. AreSizes leaders.now (length leaders.now) sizes.items) }
{
    let mut sizes = vec![in alloc; 0u32; leaders.len()]?;
    for leader in leaders {
        sizes[*leader as usize] += 1;
    }
    Ok(sizes)
}

/// Returns the number of places of the largest component.
fn largest_size(leaders: &[u32], sizes: &[u32]) -> u32
    requires some { 0 < length leaders.now }
    requires inside { All (λ leader. leader < length leaders.now) leaders.now }
    requires sizes { AreSizes leaders.now (length leaders.now) sizes.now }
    ensures { IsLargest leaders.now result }
{
    let mut largest = sizes[leaders[0] as usize];
    for leader in leaders {
        largest = largest.max(sizes[*leader as usize]);
    }
    largest
}
