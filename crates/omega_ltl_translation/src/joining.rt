//! Edges of one state that lead to one state and are late in the same sets, joined.

ghost use Rattle.std.specs.Prelude.{IfOk, IsOkUnless, IsTrue, OnOk};
ghost use Rattle.omega_ltl_translation.specs.private.Joining.{AddsJoined, AreJoined, HasCubeMore};
ghost use Rattle.omega_ltl_translation.specs.private.Joining.{IsJoinable, IsPlaceToJoin};

use crate::graph::GraphEdge;
use omega_ltl_shapes::Cube;
use omega_text::Refusal;
use std::alloc::Global;

/// The most cubes that are joined to one label, so that it is not too deep.
const MOST_CUBES: usize = 128;

/// Edges of one state with one target and one late set, together.
#[derive(Debug, Drop)]
pub(crate) struct JoinedEdge {
    /// The letters at which it can be taken: those of each cube.
    pub(crate) cubes: Vec<Cube>,
    /// The number of the state that it leads to.
    pub(crate) target: u32,
    /// The sets in which it is late.
    pub(crate) late: u64,
}

/// Returns the edges of a state, with those of one target and one late set joined.
pub(crate) fn joined_edges(alloc: Global, edges: &[GraphEdge]) -> Result<Vec<JoinedEdge>, Refusal>
    ensures joined { IfOk result (λ joined. AreJoined edges.now joined.items) }
    ensures memory { IsOkUnless result Refusal.Memory }
{
    let mut joined = Vec::new(alloc);
    for edge in edges {
        push_joined(alloc, *edge, &mut joined)?;
    }
    Ok(joined)
}

/// Joins an edge to one that leads to the same state and is late in the same sets, or appends it.
fn push_joined(alloc: Global, edge: GraphEdge, joined: &mut Vec<JoinedEdge>) -> Result<(), Refusal>
    ensures adds { OnOk result (AddsJoined edge joined.old.items joined.new.items) }
    ensures memory { IsOkUnless result Refusal.Memory }
{
    let at = place_of(edge, joined.as_slice());
    if at < joined.len() {
        return push_cube(edge.cube, &mut joined[at]);
    }
    joined.push(JoinedEdge {
        cubes: vec![in alloc; edge.cube]?,
        target: edge.target,
        late: edge.late,
    })?;
    Ok(())
}

/// Joins an edge with a cube.
fn push_cube(cube: Cube, joined: &mut JoinedEdge) -> Result<(), Refusal>
    ensures ok { OnOk result (HasCubeMore cube joined.old joined.new) }
    ensures memory { IsOkUnless result Refusal.Memory }
{
    joined.cubes.push(cube)?;
    Ok(())
}

/// Returns the place of the edge that another may be joined to, or their count.
fn place_of(edge: GraphEdge, joined: &[JoinedEdge]) -> usize
    ensures { IsPlaceToJoin edge joined.now result }
{
    let mut at = 0;
    while at < joined.len() {
        if is_joinable(edge, &joined[at]) {
            return at;
        }
        at += 1;
    }
    at
}

/// Whether an edge can be joined to others: they lead to the same state and are late in the same sets.
fn is_joinable(edge: GraphEdge, joined: &JoinedEdge) -> bool
    ensures { IsTrue result → IsJoinable edge joined.now }
{
    joined.target == edge.target && joined.late == edge.late && joined.cubes.len() < MOST_CUBES
}
