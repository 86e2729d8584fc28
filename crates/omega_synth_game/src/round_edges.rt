//! The edges of the rounds of an automaton.

ghost use Rattle.std.specs.Prelude.{◌≡◌, ◌<◌, ◌^◌, false, length, IfOk, IsOkUnless};
ghost use Rattle.omega_hoa_automaton.specs.AcceptanceKind.{HasKind};
ghost use Rattle.omega_hoa_automaton.specs.Automaton.{edge_count};
ghost use Rattle.omega_hoa_automaton.specs.Branching.{has_universal_branching};
ghost use Rattle.omega_hoa_acceptance.specs.declared.kind.AccKind.TheVariants as kinds;
ghost use Rattle.omega_lang_runs.specs.Places.{ArePlaces, EdgeStandsAt};
ghost use Rattle.omega_synth_game.specs.private.Making.{AreRoundEdges, IsRoundEdgeAt};

use omega_hoa_acceptance::{ParityKind, priority};
use omega_hoa_automaton::{Automaton, Refusal};
use omega_lang_runs::EdgePlace;
use omega_synth_rounds::RoundEdge;
use std::alloc::Global;

/// Returns the edges of the rounds of `automaton`, whose parity kind is `kind`, by number: the state that each leaves
/// and the one that it enters, and the priority of its marks. Reads the `places` of all edges.
pub fn round_edges(
    alloc: Global,
    automaton: &Automaton,
    kind: ParityKind,
    places: &[EdgePlace],
) -> Result<Vec<RoundEdge>, Refusal>
    requires plain { has_universal_branching automaton.now ≡ false }
    requires kind { HasKind automaton.now (kinds.Parity kind) }
    requires places { ArePlaces automaton.now places.now }
    ensures edges { IfOk result
        (λ edges. AreRoundEdges automaton.now kind (edge_count automaton.now) edges.items) }
    ensures few { IfOk result (λ edges. length edges.items < 2 ^ 32) }
    ensures memory { IsOkUnless result Refusal.Memory }
{
    let mut edges = Vec::new(alloc);
    for number in 0..automaton.edge_count() {
        let place = places[number as usize];
        let edge = round_edge(alloc, automaton, kind, place, number)?;
        edges.push(edge)?;
    }
    Ok(edges)
}

/// Returns the edge of the rounds for the edge with this `number`, which is at `place`.
fn round_edge(
    alloc: Global,
    automaton: &Automaton,
    kind: ParityKind,
    place: EdgePlace,
    _number: u32,
) -> Result<RoundEdge, Refusal>
    requires plain { has_universal_branching automaton.now ≡ false }
    requires kind { HasKind automaton.now (kinds.Parity kind) }
    requires place { EdgeStandsAt automaton.now _number place }
    ensures edge { IfOk result (IsRoundEdgeAt automaton.now kind _number) }
    ensures memory { IsOkUnless result Refusal.Memory }
{
    automaton.keeps_limits();
    let state = &automaton.defined()[place.state];
    let edge = state.edges.edge(place.index);
    let mut marks = Vec::new(alloc);
    marks.extend_from_slice(state.marks.as_slice())?;
    marks.extend_from_slice(edge.marks())?;
    Ok(RoundEdge {
        source: state.number,
        target: edge.targets()[0],
        priority: priority(kind, marks.as_slice()),
    })
}
