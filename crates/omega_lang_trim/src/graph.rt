//! The graph of an automaton for the search of its useful states: its states are the places of the defined states, and
//! one more for all others, which no edge leaves.

ghost use Rattle.std.specs.Prelude.{◌≡◌, ◌+◌, ◌<◌, ◌++◌, length, map, All, IfOk, OnOk, IsOkUnless};
ghost use Rattle.omega_hoa_automaton.specs.Automaton.{edges_from};
ghost use Rattle.omega_hoa_edges.specs.AutomatonLabels.{defined_numbers};
ghost use Rattle.omega_lang_trim.specs.private.Placed.{IsFew, placed_in, reversed, shape_of};
ghost use Rattle.omega_lang_trim.specs.private.Placed.{sources_of as sources_of_automaton};

use crate::places::place_in;
use indexmap::IndexSet;
use omega_graph::Graph;
use omega_hoa_automaton::{Automaton, Refusal, State};
use std::alloc::Global;

/// Returns the graph of `automaton`, which has the edges of the body in their order. `places` has the numbers of the
/// defined states.
pub(crate) fn graph_of(
    alloc: Global,
    automaton: &Automaton,
    places: &IndexSet<u32>,
) -> Result<Graph, Refusal>
    requires places { places.now.keys ≡ defined_numbers automaton.now }
    requires few { IsFew places.now.keys }
    ensures graph { IfOk result (λ graph. graph ≡ shape_of automaton.now) }
    ensures memory { IsOkUnless result Refusal.Memory }
{
    automaton.keeps_limits();
    let mut graph = Graph::new(alloc, places.len() as u32 + 1);
    for state in automaton.defined() {
        add_edges(&mut graph, places, state)?;
    }
    Ok(graph)
}

/// Adds the edges of `state` to `graph`.
fn add_edges(graph: &mut Graph, places: &IndexSet<u32>, state: &State) -> Result<(), Refusal>
    requires few { IsFew places.now.keys }
    requires states { graph.old.states ≡ length places.now.keys + 1 }
    requires targets { All (λ edge. 0 < length edge.targets) state.now.edges }
    ensures states { OnOk result (graph.new.states ≡ graph.old.states) }
    ensures edges { OnOk result
        (graph.new.edges ≡ graph.old.edges ++ map (placed_in places.now.keys) (edges_from state.now)) }
    ensures memory { IsOkUnless result Refusal.Memory }
{
    let from = place_in(places, state.number);
    for at in 0..state.edges.len() {
        let edge = state.edges.edge(at);
        graph.add(from, place_in(places, edge.targets()[0]))?;
    }
    Ok(())
}

/// Returns the places of the starts of `automaton`.
pub(crate) fn sources_of(
    alloc: Global,
    automaton: &Automaton,
    places: &IndexSet<u32>,
) -> Result<Vec<u32>, Refusal>
    requires places { places.now.keys ≡ defined_numbers automaton.now }
    requires few { IsFew places.now.keys }
    ensures sources { IfOk result (λ sources. sources.items ≡ sources_of_automaton automaton.now) }
    ensures memory { IsOkUnless result Refusal.Memory }
{
    automaton.keeps_limits();
    let mut sources = Vec::with_capacity(alloc, automaton.starts().len())?;
    for start in automaton.starts() {
        sources.push(place_in(places, start.as_slice()[0]))?;
    }
    Ok(sources)
}

/// Returns `graph` with each edge turned, in the same order.
pub(crate) fn reversed_graph(alloc: Global, graph: &Graph) -> Result<Graph, Refusal>
    ensures graph { IfOk result (λ back. back ≡ reversed graph.now) }
    ensures memory { IsOkUnless result Refusal.Memory }
{
    let mut back = Graph::new(alloc, graph.states());
    for number in 0..graph.len() as u32 {
        back.add(graph.to(number), graph.from(number))?;
    }
    Ok(back)
}
