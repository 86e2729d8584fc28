//! The edges of a product with a complement at which the other automaton goes on alone.

ghost use Rattle.std.specs.Prelude.{◌≡◌, ◌<◌, ◌^◌, IfOk, IsOkUnless, length};
ghost use Rattle.omega_lang_runs.specs.Places.{ArePlaces};
ghost use Rattle.std.specs.List.{list_any};
ghost use Rattle.std.specs.Str.{bytes_eq};
ghost use Rattle.omega_synth_check.specs.CounterRefusing.{system_numbers};
ghost use Rattle.omega_synth_check.specs.private.Letterless.{AreWaysOut};
ghost use Rattle.omega_synth_check.specs.WaysOut.{is_way_out};

use omega_hoa_automaton::Automaton;
use omega_lang_product::PairGraph;
use omega_lang_runs::{EdgePlace, edge_of, edge_places};
use omega_text::{ByteString, Refusal};
use std::alloc::Global;

/// Returns for each edge of `graph`, that of a product with `complement`, whether it takes an edge of the complement
/// that enters the state `sink` from another state.
pub(crate) fn ways_out(
    alloc: Global,
    complement: &Automaton,
    sink: u32,
    graph: &PairGraph,
) -> Result<Vec<bool>, Refusal>
    ensures flags { IfOk result (λ flags. AreWaysOut complement.now sink graph.now flags.items) }
    ensures memory { IsOkUnless result Refusal.Memory }
{
    let places = edge_places(alloc, complement)?;
    let seconds = graph.edges.seconds.as_slice();
    let mut flags = Vec::with_capacity(alloc, seconds.len())?;
    for second in seconds {
        flags.push(is_way_out(complement, places.as_slice(), sink, *second))?;
    }
    Ok(flags)
}

/// Whether the edge with this `number`, found by the `places` of all edges, enters the state `sink` from another state.
pub fn is_way_out(complement: &Automaton, places: &[EdgePlace], sink: u32, number: u32) -> bool
    requires { ArePlaces complement.now places.now }
    ensures { result ≡ is_way_out complement.now sink number }
{
    match edge_of(complement, places, number) {
        None => false,
        Some(found) => {
            let edge = found.state.edges.edge(found.index);
            let target = edge.targets().first().copied().unwrap_or(0);
            target == sink && found.state.number != sink
        }
    }
}

/// Returns the numbers of those of `names` that are among `controlled`.
pub fn numbers_named(
    alloc: Global,
    names: &[ByteString],
    controlled: &[ByteString],
) -> Result<Vec<u32>, Refusal>
    requires { length names.now < 2 ^ 32 }
    ensures numbers { IfOk result (λ found. found.items ≡ system_numbers names.now controlled.now) }
    ensures memory { IsOkUnless result Refusal.Memory }
{
    let mut found = Vec::new(alloc);
    for p in 0..names.len() {
        if is_name_among(controlled, names[p].as_slice()) {
            found.push(p as u32)?;
        }
    }
    Ok(found)
}

/// Whether `name` is one of `names`.
pub fn is_name_among(names: &[ByteString], name: &[u8]) -> bool
    ensures { result ≡ list_any (bytes_eq name.now) names.now }
{
    names.iter().any(|other| name == other.as_slice())
}
