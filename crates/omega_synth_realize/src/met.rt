//! The kept edges that leave states to which kept edges lead.

ghost use Rattle.std.specs.Prelude.{◌≡◌, ◌<◌, ◌^◌, ◌++◌, [], ◌∷◌, IfOk, IsOkUnless, OnOk};
ghost use Rattle.std.specs.Prelude.{false, filter, if◌then◌else◌, length, slice_index_or};
ghost use Rattle.std.specs.List.Sorted.{IsStrictlyIncreasing};
ghost use Rattle.omega_synth_rounds.specs.Rounds.{AreAnswers, IsRounds};
ghost use Rattle.omega_synth_realize.specs.private.Met.{AreMetAmong, IsKeptGraph, leaves_flagged};

use omega_graph::{Graph, reached_flags};
use omega_graph_search::numbers_below;
use omega_synth_rounds::Rounds;
use omega_text::Refusal;
use std::alloc::Global;

/// Returns those of the `kept` edges that leave states to which kept edges lead from `start`, in their order. Linear in
/// the states and the kept edges.
pub(crate) fn met_edges(
    alloc: Global,
    rounds: &Rounds,
    start: u32,
    kept: &[u32],
) -> Result<Vec<u32>, Refusal>
    requires rounds { IsRounds rounds.now }
    requires few { length rounds.now.states < 2 ^ 32 }
    requires start { start < length rounds.now.states }
    requires answers { AreAnswers rounds.now kept.now }
    ensures met { IfOk result (λ met. AreMetAmong rounds.now start kept.now met.items) }
    ensures rising { IsStrictlyIncreasing kept.now
        → IfOk result (λ met. IsStrictlyIncreasing met.items) }
    ensures memory { IsOkUnless result Refusal.Memory }
{
    let graph = kept_graph(alloc, rounds, kept)?;
    let edges = numbers_below(alloc, graph.len() as u32)?;
    let mut sources = Vec::new(alloc);
    sources.push(start)?;
    let reached = reached_flags(alloc, &graph, edges.as_slice(), sources.as_slice())?;
    edges_from(alloc, rounds, kept, reached.as_slice())
}

/// Returns the graph of the `kept` edges.
fn kept_graph(alloc: Global, rounds: &Rounds, kept: &[u32]) -> Result<Graph, Refusal>
    requires rounds { IsRounds rounds.now }
    requires few { length rounds.now.states < 2 ^ 32 }
    requires answers { AreAnswers rounds.now kept.now }
    ensures graph { IfOk result (IsKeptGraph rounds.now kept.now) }
    ensures memory { IsOkUnless result Refusal.Memory }
{
    let mut graph = Graph::new(alloc, rounds.states.len() as u32);
    for number in kept {
        let edge = rounds.edges.as_slice()[*number as usize];
        graph.add(edge.source, edge.target)?;
    }
    Ok(graph)
}

/// Returns those of the edges with these `numbers` that leave states with a flag, in their order.
fn edges_from(
    alloc: Global,
    rounds: &Rounds,
    numbers: &[u32],
    flags: &[bool],
) -> Result<Vec<u32>, Refusal>
    requires rounds { IsRounds rounds.now }
    requires answers { AreAnswers rounds.now numbers.now }
    ensures found { IfOk result
        (λ found. found.items ≡ filter (leaves_flagged rounds.now flags.now) numbers.now) }
    ensures memory { IsOkUnless result Refusal.Memory }
{
    let mut found = Vec::new(alloc);
    for number in numbers {
        let edge = rounds.edges.as_slice()[*number as usize];
        let flagged = has_flag(flags, edge.source);
        push_if(flagged, *number, &mut found)?;
    }
    Ok(found)
}

/// Whether `state` has a flag.
fn has_flag(flags: &[bool], state: u32) -> bool
    ensures { result ≡ slice_index_or flags.now state false }
{
    if (state as usize) < flags.len() {
        flags[state as usize]
    } else {
        false
    }
}

/// Appends `number` if it is `wanted`.
fn push_if(wanted: bool, number: u32, numbers: &mut Vec<u32>) -> Result<(), Refusal>
    ensures pushed { OnOk result (numbers.new.items
        ≡ (if wanted then numbers.old.items ++ number ∷ [] else numbers.old.items)) }
    ensures memory { IsOkUnless result Refusal.Memory }
{
    if wanted {
        numbers.push(number)?;
    }
    Ok(())
}
