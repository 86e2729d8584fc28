//! The states of a graph, as a text writes them.

ghost use Rattle.std.specs.Prelude.{◌≤◌, length, IfOk, IsOkUnless};
ghost use Rattle.omega_ltl_translation.specs.Limits.{most_states};
ghost use Rattle.omega_ltl_translation.specs.private.Written.{AreWrittenStates, IsWrittenState};

use crate::edges::edges_of;
use crate::graph::GraphEdge;
use omega_hoa_automaton::StateName;
use omega_hoa_syntax::RawState;
use omega_text::{Marks, Refusal, Seq};
use std::alloc::Global;

/// Returns the states with these edges, by their numbers.
pub(crate) fn states_of(
    alloc: Global,
    edges: &[Seq<GraphEdge>],
    sets: u32,
) -> Result<Vec<RawState>, Refusal>
    requires { length edges.now ≤ most_states }
    ensures states { IfOk result
        (λ states. AreWrittenStates sets edges.now (length edges.now) states.items) }
    ensures memory { IsOkUnless result Refusal.Memory }
{
    let mut states = Vec::new(alloc);
    for number in 0..edges.len() {
        let state = state_of(alloc, number as u32, edges[number].as_slice(), sets)?;
        states.push(state)?;
    }
    Ok(states)
}

/// Returns the state with a number and edges.
fn state_of(alloc: Global, number: u32, edges: &[GraphEdge], sets: u32) -> Result<RawState, Refusal>
    ensures state { IfOk result (IsWrittenState sets number edges.now) }
    ensures memory { IsOkUnless result Refusal.Memory }
{
    let edges = edges_of(alloc, edges, sets)?;
    Ok(RawState {
        label: None,
        number,
        name: StateName::absent(),
        marks: Marks::absent(),
        edges,
    })
}
