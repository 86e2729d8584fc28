//! The kept edges as a graph.

ghost use Rattle.std.specs.Prelude.{◌≡◌, false, IfNone, IfOk, IfSome, IsOkUnless};
ghost use Rattle.omega_hoa_automaton.specs.Branching.{has_universal_branching};
ghost use Rattle.omega_lang_runs.specs.Places.{ArePlaces};
ghost use Rattle.omega_synth_text.specs.private.Reached.{HasNoEnds, IsEndsOf, IsKeptGraph};

use omega_graph::Graph;
use omega_hoa_automaton::Automaton;
use omega_lang_runs::{EdgePlace, edge_of, edge_places};
use omega_text::Refusal;
use std::alloc::Global;

/// Returns the graph of the `kept` edges: its states are those of `automaton`.
pub(crate) fn kept_graph(
    alloc: Global,
    automaton: &Automaton,
    kept: &[u32],
) -> Result<Graph, Refusal>
    requires { has_universal_branching automaton.now ≡ false }
    ensures graph { IfOk result (IsKeptGraph automaton.now kept.now) }
    ensures memory { IsOkUnless result Refusal.Memory }
{
    automaton.keeps_limits();
    let places = edge_places(alloc, automaton)?;
    let mut graph = Graph::new(alloc, automaton.state_count());
    for number in kept {
        match ends_of(automaton, places.as_slice(), *number) {
            Some(ends) => graph.add(ends.0, ends.1)?,
            None => {}
        }
    }
    Ok(graph)
}

/// Returns the states that the edge with this `number` leaves and enters, if there is one.
fn ends_of(automaton: &Automaton, places: &[EdgePlace], number: u32) -> Option<(u32, u32)>
    requires places { ArePlaces automaton.now places.now }
    requires plain { has_universal_branching automaton.now ≡ false }
    ensures ends { IfSome result (λ ends. IsEndsOf automaton.now number ends.0 ends.1) }
    ensures none { IfNone result (HasNoEnds automaton.now number) }
{
    automaton.keeps_limits();
    let found = edge_of(automaton, places, number)?;
    let edge = found.state.edges.edge(found.index);
    Some((found.state.number, edge.targets()[0]))
}
