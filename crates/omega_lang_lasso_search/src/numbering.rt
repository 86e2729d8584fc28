//! The graph of an automaton. Its states keep their numbers if these are dense, and are else numbered in the order in
//! which they are first met.
ghost use Rattle.std.specs.Prelude.{◌≡◌, ◌+◌, ◌*◌, ◌<◌, ◌≤◌, length, map};
ghost use Rattle.std.specs.Prelude.{nat_eq, All, IfOk, IsOkUnless, OnOk};
ghost use Rattle.std.specs.List.{IsDistinct};
ghost use Rattle.omega_graph.specs.Graph.{IsInside};
ghost use Rattle.omega_lang_lasso_search.specs.private.Numbering.{Grows, IsNamed, Represents};
ghost use Rattle.omega_lang_lasso_search.specs.private.Numbering.{ends_in, first_of, name_in};

use indexmap::IndexSet;
use omega_graph::{Edge, Graph};
use omega_hoa_automaton::Refusal;
use omega_text::Numbers;
use std::alloc::Global;

/// The graph of an automaton, and its starts by their numbers there.
#[derive(Drop)]
pub(crate) struct Numbered {
    pub(crate) graph: Graph,
    pub(crate) sources: Vec<u32>,
}

/// Returns the graph with these `ends`, with `starts` as sources.
pub(crate) fn number_states(
    alloc: Global,
    starts: &[u32],
    ends: &[Edge],
) -> Result<Numbered, Refusal>
    ensures numbered { IfOk result (Represents starts.now ends.now) }
    ensures memory { IsOkUnless result Refusal.Memory }
{
    let bound = end_bound(ends, start_bound(starts));
    let numbered = if bound / 2 <= starts.len().max(ends.len()) && bound < u32::MAX as usize {
        keep_numbers(alloc, starts, ends, bound as u32)?
    } else {
        number_anew(alloc, starts, ends)?
    };
    Ok(numbered)
}

/// Returns one more than the greatest state in `starts`, or 0 if there are none.
fn start_bound(starts: &[u32]) -> usize
    ensures { All (λ start. start < result) starts.now }
{
    let mut bound = 0usize;
    for start in starts {
        bound = bound.max(*start as usize + 1);
    }
    bound
}

/// Returns one more than the greatest state in `ends`, but at least `least`.
fn end_bound(ends: &[Edge], least: usize) -> usize
    ensures least { least ≤ result }
    ensures ends { All (IsInside result) ends.now }
{
    let mut bound = least;
    for end in ends {
        bound = bound.max(end.from.max(end.to) as usize + 1);
    }
    bound
}

/// Returns the graph with these `ends`, whose states are below `bound`, and with `starts` as sources.
fn keep_numbers(
    alloc: Global,
    starts: &[u32],
    ends: &[Edge],
    bound: u32,
) -> Result<Numbered, Refusal>
    requires first { All (λ start. start < bound) starts.now }
    requires ends { All (IsInside bound) ends.now }
    ensures numbered { IfOk result (Represents starts.now ends.now) }
    ensures memory { IsOkUnless result Refusal.Memory }
{
    let sources = Vec::from_slice(alloc, starts)?;
    let graph = graph_on(alloc, ends, bound)?;
    Ok(Numbered { graph, sources })
}

/// Returns the first state of each list in `starts`.
pub(crate) fn first_states(alloc: Global, starts: &[Numbers]) -> Result<Vec<u32>, Refusal>
    requires { All (λ start. 0 < length start) starts.now }
    ensures states { IfOk result (λ states. states.items ≡ map first_of starts.now) }
    ensures memory { IsOkUnless result Refusal.Memory }
{
    let mut states = Vec::with_capacity(alloc, starts.len())?;
    for start in starts {
        states.push(start.as_slice()[0])?;
    }
    Ok(states)
}

/// Returns the graph with this number of `states` and these `ends`.
fn graph_on(alloc: Global, ends: &[Edge], states: u32) -> Result<Graph, Refusal>
    requires { All (IsInside states) ends.now }
    ensures states { IfOk result (λ graph. graph.states ≡ states) }
    ensures edges { IfOk result (λ graph. graph.edges ≡ ends.now) }
    ensures memory { IsOkUnless result Refusal.Memory }
{
    let mut graph = Graph::new(alloc, states);
    for end in ends {
        graph.add(end.from, end.to)?;
    }
    Ok(graph)
}

/// Returns the graph with these `ends`, whose states are numbered as they are first met, the starts before the others.
fn number_anew(alloc: Global, starts: &[u32], ends: &[Edge]) -> Result<Numbered, Refusal>
    ensures numbered { IfOk result (Represents starts.now ends.now) }
    ensures memory { IsOkUnless result Refusal.Memory }
{
    let mut met = IndexSet::new(alloc);
    let sources = sources(alloc, starts, &mut met)?;
    let graph = graph_of(alloc, ends, starts.len(), &mut met)?;
    Ok(Numbered { graph, sources })
}

/// Gives each of `starts` a number, and returns these numbers.
fn sources(alloc: Global, starts: &[u32], met: &mut IndexSet<u32>) -> Result<Vec<u32>, Refusal>
    requires { IsDistinct nat_eq met.old.keys }
    ensures distinct { OnOk result (IsDistinct nat_eq met.new.keys) }
    ensures grows { OnOk result (Grows (length starts.now) met.old.keys met.new.keys) }
    ensures within { IfOk result
        (λ sources. All (λ source. source < length met.new.keys) sources.items) }
    ensures names { IfOk result (λ sources. map (name_in met.new.keys) sources.items ≡ starts.now) }
    ensures memory { IsOkUnless result Refusal.Memory }
{
    let mut sources = Vec::new(alloc);
    for start in starts {
        let source = number(met, *start)?;
        sources.push(source)?;
    }
    Ok(sources)
}

/// Returns the graph with these `ends`, after numbering their states. At most `before` states are numbered yet. Fails
/// with [Refusal::Memory] also if there may be too many states for a `u32`.
fn graph_of(
    alloc: Global,
    ends: &[Edge],
    before: usize,
    met: &mut IndexSet<u32>,
) -> Result<Graph, Refusal>
    requires before { length met.old.keys ≤ before }
    requires distinct { IsDistinct nat_eq met.old.keys }
    ensures distinct { OnOk result (IsDistinct nat_eq met.new.keys) }
    ensures grows { OnOk result (Grows (2 * length ends.now) met.old.keys met.new.keys) }
    ensures states { IfOk result (λ graph. graph.states ≡ before + 2 * length ends.now) }
    ensures inside { IfOk result (λ graph. All (IsNamed met.new.keys) graph.edges) }
    ensures ends { IfOk result (λ graph. map (ends_in met.new.keys) graph.edges ≡ ends.now) }
    ensures memory { IsOkUnless result Refusal.Memory }
{
    if before >= 1 << 31 || ends.len() >= 1 << 30 {
        return Err(Refusal::Memory);
    }
    let states = (before + 2 * ends.len()) as u32;
    let mut graph = Graph::new(alloc, states);
    for end in ends {
        let from = number(met, end.from)?;
        let to = number(met, end.to)?;
        graph.add(from, to)?;
    }
    Ok(graph)
}

/// Returns the number of `state`: that which it has, or else the next one.
fn number(met: &mut IndexSet<u32>, state: u32) -> Result<u32, Refusal>
    ensures distinct { OnOk result (IsDistinct nat_eq met.new.keys) }
    ensures grows { OnOk result (Grows 1 met.old.keys met.new.keys) }
    ensures within { IfOk result (λ number. number < length met.new.keys) }
    ensures name { IfOk result (λ number. name_in met.new.keys number ≡ state) }
    ensures memory { IsOkUnless result Refusal.Memory }
{
    let placed = met.insert_full(state)?;
    let index = placed.0;
    if index > u32::MAX as usize {
        return Err(Refusal::Memory);
    }
    Ok(index as u32)
}
