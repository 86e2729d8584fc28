//! The useful states of an automaton.

ghost use Rattle.std.specs.Prelude.{◌≡◌, [], ◌+◌, ◌<◌, ◌&&◌, false, if◌then◌else◌, length};
ghost use Rattle.std.specs.Prelude.{nat_eq, IfErr, IfOk, IsOkUnless, OnOk, vec_len};
ghost use Rattle.std.specs.List.Sorted.{IsPermutation, IsStrictlyIncreasing};
ghost use Rattle.indexmap.specs.IndexSet.{insert_key};
ghost use Rattle.omega_hoa_automaton.specs.Branching.{has_universal_branching};
ghost use Rattle.omega_graph.specs.Reaching.{TellReached};
ghost use Rattle.omega_lang_runs.specs.Judging.{GivesUpOn, HasHardLabel};
ghost use Rattle.omega_lang_lasso_search.specs.Tabled.{AreUsableEdges};
ghost use Rattle.omega_lang_trim.specs.Useful.{AreUsefulStates};
ghost use Rattle.omega_hoa_edges.specs.AutomatonLabels.{defined_numbers};
ghost use Rattle.omega_lang_trim.specs.private.Placed.{HaveBoth, IsFew};
ghost use Rattle.omega_lang_trim.specs.private.Placed.{flag_at, shape_of, sources_of};

use crate::graph::{graph_of, sources_of};
use crate::live::live_states;
use crate::places::{place_in, places_of};
use indexmap::IndexSet;
use omega_graph::{Graph, reached_flags};
use omega_hoa_automaton::{Automaton, Refusal};
use omega_lang_lasso_search::usable_edges;
use std::alloc::Global;

/// For each state of a graph whether it is reached, and whether an accepting lasso starts in it.
#[derive(Clone, Copy)]
struct Flags<'a> {
    reached: &'a [bool],
    live: &'a [bool],
}

/// Returns the numbers of the useful states, in ascending order. Fails with [TaskFault::TooManyPropositions] if a label
/// is given up.
pub(crate) fn useful_states(alloc: Global, automaton: &Automaton) -> Result<IndexSet<u32>, Refusal>
    requires plain { has_universal_branching automaton.now ≡ false }
    ensures useful { IfOk result (λ kept. AreUsefulStates automaton.now kept.keys) }
    ensures few { IfOk result (λ kept. IsFew kept.keys) }
    ensures refused { IfErr result (GivesUpOn (HasHardLabel automaton.now)) }
{
    let edges = usable_edges(alloc, automaton)?;
    useful_along(alloc, automaton, edges.as_slice())
}

/// Returns the numbers of the useful states, given the usable `edges`.
fn useful_along(
    alloc: Global,
    automaton: &Automaton,
    edges: &[u32],
) -> Result<IndexSet<u32>, Refusal>
    requires plain { has_universal_branching automaton.now ≡ false }
    requires usable { AreUsableEdges automaton.now edges.now }
    ensures useful { IfOk result (λ kept. AreUsefulStates automaton.now kept.keys) }
    ensures few { IfOk result (λ kept. IsFew kept.keys) }
    ensures memory { IsOkUnless result Refusal.Memory }
{
    match places_of(alloc, automaton) {
        Ok(places) => useful_among(alloc, automaton, &places, edges),
        Err(refusal) => Err(refusal),
    }
}

/// Returns the numbers of the useful states, given the usable `edges` and the numbers of the defined states.
fn useful_among(
    alloc: Global,
    automaton: &Automaton,
    places: &IndexSet<u32>,
    edges: &[u32],
) -> Result<IndexSet<u32>, Refusal>
    requires plain { has_universal_branching automaton.now ≡ false }
    requires places { places.now.keys ≡ defined_numbers automaton.now }
    requires few { IsFew places.now.keys }
    requires usable { AreUsableEdges automaton.now edges.now }
    ensures useful { IfOk result (λ kept. AreUsefulStates automaton.now kept.keys) }
    ensures few { IfOk result (λ kept. IsFew kept.keys) }
    ensures memory { IsOkUnless result Refusal.Memory }
{
    match graph_of(alloc, automaton, places) {
        Ok(graph) => useful_in(alloc, automaton, places, &graph, edges),
        Err(refusal) => Err(refusal),
    }
}

/// Returns the numbers of the useful states, given the usable `edges`, the numbers of the defined states, and the
/// `graph` of `automaton`.
fn useful_in(
    alloc: Global,
    automaton: &Automaton,
    places: &IndexSet<u32>,
    graph: &Graph,
    edges: &[u32],
) -> Result<IndexSet<u32>, Refusal>
    requires plain { has_universal_branching automaton.now ≡ false }
    requires places { places.now.keys ≡ defined_numbers automaton.now }
    requires few { IsFew places.now.keys }
    requires graph { graph.now ≡ shape_of automaton.now }
    requires usable { AreUsableEdges automaton.now edges.now }
    ensures useful { IfOk result (λ kept. AreUsefulStates automaton.now kept.keys) }
    ensures few { IfOk result (λ kept. IsFew kept.keys) }
    ensures memory { IsOkUnless result Refusal.Memory }
{
    automaton.keeps_limits();
    let reached = reached_states(alloc, automaton, places, graph, edges)?;
    let live = live_states(alloc, automaton, graph, edges)?;
    let flags = Flags {
        reached: reached.as_slice(),
        live: live.as_slice(),
    };
    with_both(alloc, automaton, places, &flags)
}

/// Returns for each state of `graph` whether `edges` lead to it from a start.
fn reached_states(
    alloc: Global,
    automaton: &Automaton,
    places: &IndexSet<u32>,
    graph: &Graph,
    edges: &[u32],
) -> Result<Vec<bool>, Refusal>
    requires places { places.now.keys ≡ defined_numbers automaton.now }
    requires few { IsFew places.now.keys }
    requires graph { graph.now ≡ shape_of automaton.now }
    requires usable { AreUsableEdges automaton.now edges.now }
    ensures count { IfOk result (λ flags. vec_len flags ≡ graph.now.states) }
    ensures reached { IfOk result (λ flags.
        TellReached (shape_of automaton.now) edges.now (sources_of automaton.now) flags.items) }
    ensures memory { IsOkUnless result Refusal.Memory }
{
    let sources = sources_of(alloc, automaton, places)?;
    reached_flags(alloc, graph, edges, sources.as_slice())
}

/// Returns the numbers of the defined states with both flags, in ascending order.
fn with_both(
    alloc: Global,
    automaton: &Automaton,
    places: &IndexSet<u32>,
    flags: &Flags<'_>,
) -> Result<IndexSet<u32>, Refusal>
    requires places { places.now.keys ≡ defined_numbers automaton.now }
    requires few { IsFew places.now.keys }
    requires reached { length flags.now.reached.now ≡ length automaton.now.defined + 1 }
    requires live { length flags.now.live.now ≡ length automaton.now.defined + 1 }
    ensures both { IfOk result (λ kept.
        HaveBoth automaton.now flags.now.reached.now flags.now.live.now kept.keys) }
    ensures few { IfOk result (λ kept. IsFew kept.keys) }
    ensures memory { IsOkUnless result Refusal.Memory }
{
    let mut kept = IndexSet::new(alloc);
    match add_both(&mut kept, automaton, places, flags) {
        Ok(()) => Ok(kept),
        Err(refusal) => Err(refusal),
    }
}

/// Adds the numbers of the defined states with both flags to an empty set, in ascending order.
fn add_both(
    kept: &mut IndexSet<u32>,
    automaton: &Automaton,
    places: &IndexSet<u32>,
    flags: &Flags<'_>,
) -> Result<(), Refusal>
    requires empty { kept.old.keys ≡ [] }
    requires places { places.now.keys ≡ defined_numbers automaton.now }
    requires few { IsFew places.now.keys }
    requires reached { length flags.now.reached.now ≡ length automaton.now.defined + 1 }
    requires live { length flags.now.live.now ≡ length automaton.now.defined + 1 }
    ensures both { OnOk result
        (HaveBoth automaton.now flags.now.reached.now flags.now.live.now kept.new.keys) }
    ensures few { OnOk result (IsFew kept.new.keys) }
    ensures memory { IsOkUnless result Refusal.Memory }
{
    for state in automaton.defined() {
        let place = place_in(places, state.number) as usize;
        add_if(kept, state.number, are_both_set(flags, place))?;
    }
    sort(kept)?;
    Ok(())
}

/// Whether both flags at `place` are set.
fn are_both_set(flags: &Flags<'_>, place: usize) -> bool
    requires reached { place < length flags.now.reached.now }
    requires live { place < length flags.now.live.now }
    ensures { result ≡ (flag_at flags.now.reached.now place && flag_at flags.now.live.now place) }
{
    flags.reached[place] && flags.live[place]
}

/// Adds `number` if `flag` is set.
fn add_if(numbers: &mut IndexSet<u32>, number: u32, flag: bool) -> Result<(), Refusal>
    ensures numbers { OnOk result
        (numbers.new.keys ≡ (if flag then insert_key nat_eq numbers.old.keys number
        else numbers.old.keys)) }
    ensures memory { IsOkUnless result Refusal.Memory }
{
    if flag {
        numbers.insert(number)?;
    }
    Ok(())
}

/// Sorts `numbers`. Fails with [Refusal::Memory] also if there are over 2^32 - 2 of them.
fn sort(numbers: &mut IndexSet<u32>) -> Result<(), Refusal>
    ensures same { OnOk result (IsPermutation numbers.old.keys numbers.new.keys) }
    ensures rising { OnOk result (IsStrictlyIncreasing numbers.new.keys) }
    ensures few { OnOk result (IsFew numbers.new.keys) }
    ensures memory { IsOkUnless result Refusal.Memory }
{
    numbers.sort()?;
    if numbers.len() >= u32::MAX as usize {
        return Err(Refusal::Memory);
    }
    Ok(())
}
