//! The states that a formula's demand leads to, and their edges.

ghost use Rattle.std.specs.Prelude.{◌≡◌, ◌<◌, ◌≤◌, ◌⊎◌, [], ◌∷◌, Some, ℕ, length, slice_get, sum_by, Contains};
ghost use Rattle.std.specs.Prelude.{IfErr, IfOk, IsOkUnless, OnOk};
ghost use Rattle.omega_ltl_shapes.specs.declared.term.Term.{Term};
ghost use Rattle.omega_ltl_terms.specs.Adding.{IsLargeBy};
ghost use Rattle.omega_ltl_terms.specs.Closing.{Closes};
ghost use Rattle.omega_ltl_terms.specs.Meeting.{IsStateTooLarge};
ghost use Rattle.omega_ltl_terms.specs.Tables.{AreTables};
ghost use Rattle.omega_ltl_translation.specs.Limits.{most_states};
ghost use Rattle.omega_ltl_translation.specs.PastLimits.{AreReached, HaveEdges, IsGraphTooLarge, IsStart};
ghost use Rattle.omega_ltl_translation.specs.private.Graphs.{AddsStates, AreEdgesOf, AreNumbered, AreStates};
ghost use Rattle.omega_ltl_translation.specs.private.Graphs.{GrowTooMany, IsExplored, IsNext, IsStateNumber};
ghost use Rattle.omega_ltl_translation.specs.private.Graphs.{IsWithState, LacksNeededSet, state_of, states_of};

use crate::graph::{Graph, GraphEdge};
use crate::limits::{MOST_EDGES, MOST_STATES};
use indexmap::IndexSet;
use omega_ltl_shapes::Term;
use omega_ltl_terms::Tables;
use omega_text::{Numbers, Refusal, Seq, TaskFault};
use std::alloc::Global;

/// Returns the graph of the states that the demand `root` leads to. Fails with [TaskFault::TooLarge] if there are over
/// [MOST_STATES] states or over [MOST_EDGES] edges, or if the edges of a state are refused.
pub(crate) fn explore(alloc: Global, tables: &Tables, root: u32) -> Result<Graph, Refusal>
    requires tables { AreTables tables.now }
    requires root { root < length tables.now.shapes }
    ensures explored { IfOk result (λ graph. IsExplored tables.now.shapes tables.now.strongs root
        (length graph.states.items) graph.states.items graph.edges.items) }
    ensures few { IfOk result (λ graph. length graph.states.items ≤ most_states) }
    ensures reached { IfOk result
        (λ graph. AreReached tables.now.shapes tables.now.strongs root graph.states.items) }
    ensures counted { IfOk result (λ graph. HaveEdges tables.now.shapes tables.now.strongs
        graph.states.items (sum_by length graph.edges.items)) }
    ensures refused { IfErr result
        (IsLargeBy (IsGraphTooLarge tables.now.shapes tables.now.strongs root
        ⊎ LacksNeededSet tables.now.shapes tables.now.strongs root)) }
{
    let mut found = IndexSet::new(alloc);
    let mut states = Vec::new(alloc);
    let mut edges = Vec::new(alloc);
    let start = start_of(alloc, tables, root)?;
    number_of(alloc, start.as_slice(), &mut found, &mut states)?;
    let mut count = 0usize;
    while edges.len() < states.len() {
        if states.len() > MOST_STATES {
            return Err(Refusal::Task(TaskFault::TooLarge));
        }
        let row = row_of(alloc, tables, edges.len(), &mut found, &mut states)?;
        count = count.saturating_add(row.len());
        if count > MOST_EDGES {
            return Err(Refusal::Task(TaskFault::TooLarge));
        }
        edges.push(row)?;
    }
    Ok(Graph { states, edges })
}

/// Returns the start: the demands that close `root`, or `root` alone if it is false.
fn start_of(alloc: Global, tables: &Tables, root: u32) -> Result<Numbers, Refusal>
    requires tables { AreTables tables.now }
    requires root { root < length tables.now.shapes }
    ensures closes { IfOk result (Closes tables.now.shapes (root ∷ [])) }
    ensures start { IfOk result (IsStart tables.now.shapes root) }
    ensures memory { IsOkUnless result Refusal.Memory }
{
    match tables.closed(alloc, &[root])? {
        Some(start) => Ok(start),
        None => Ok(Numbers::one(root)),
    }
}

/// Returns the edges of the state with a number. States that they lead to and that are not there are appended.
fn row_of(
    alloc: Global,
    tables: &Tables,
    number: usize,
    found: &mut IndexSet<Vec<u32>>,
    states: &mut Vec<Numbers>,
) -> Result<Seq<GraphEdge>, Refusal>
    requires tables { AreTables tables.now }
    requires low { number < length states.old.items }
    requires states { AreStates tables.now.shapes states.old.items }
    requires found { states_of found.old.keys ≡ states.old.items }
    ensures row { IfOk result (AreEdgesOf tables.now.shapes tables.now.strongs states.new.items
        (state_of states.old.items number)) }
    ensures adds { OnOk result (AddsStates
        (IsNext tables.now.shapes tables.now.strongs (state_of states.old.items number))
        states.old.items states.new.items) }
    ensures found { OnOk result (states_of found.new.keys ≡ states.new.items) }
    ensures refused { IfErr result (IsLargeBy
        (IsStateTooLarge tables.now.shapes tables.now.strongs (state_of states.old.items number)
        ⊎ GrowTooMany (IsNext tables.now.shapes tables.now.strongs (state_of states.old.items number))
        states.old.items)) }
{
    let known = states.as_slice();
    let terms = tables.edges_of(alloc, known[number].as_slice())?;
    numbered(alloc, terms.as_slice(), found, states)
}

/// Returns the terms as edges with numbers of states. States that are not there are appended to `states`. Fails with
/// [TaskFault::TooLarge] if they are over [MOST_STATES].
fn numbered(
    alloc: Global,
    terms: &[Term],
    found: &mut IndexSet<Vec<u32>>,
    states: &mut Vec<Numbers>,
) -> Result<Seq<GraphEdge>, Refusal>
    requires { states_of found.old.keys ≡ states.old.items }
    ensures numbered { IfOk result (AreNumbered states.new.items terms.now) }
    ensures adds { OnOk result (AddsStates
        (λ state. (term : Term) × Contains terms.now term × (term.next ≡ state))
        states.old.items states.new.items) }
    ensures found { OnOk result (states_of found.new.keys ≡ states.new.items) }
    ensures refused { IfErr result (IsLargeBy (GrowTooMany
        (λ state. (term : Term) × Contains terms.now term × (term.next ≡ state)) states.old.items)) }
{
    let mut edges = Vec::new(alloc);
    for term in terms {
        let target = number_of(alloc, term.next.as_slice(), found, states)?;
        edges.push(GraphEdge {
            cube: term.cube,
            target,
            late: term.late,
        })?;
    }
    Ok(Seq::from_vec(edges))
}

/// Returns the number of a state, which is appended to `states` if it is not there. `found` has the states in the same
/// order. Fails with [TaskFault::TooLarge] if there are over [MOST_STATES].
fn number_of(
    alloc: Global,
    state: &[u32],
    found: &mut IndexSet<Vec<u32>>,
    states: &mut Vec<Numbers>,
) -> Result<u32, Refusal>
    requires { states_of found.old.keys ≡ states.old.items }
    ensures number { IfOk result (IsStateNumber state.now states.old.items states.new.items) }
    ensures found { OnOk result (states_of found.new.keys ≡ states.new.items) }
    ensures refused { IfErr result (IsLargeBy (most_states < length states.old.items)) }
{
    if states.len() > MOST_STATES {
        return Err(Refusal::Task(TaskFault::TooLarge));
    }
    let number = place_in(alloc, state, found)?;
    if number < states.len() {
        return Ok(number as u32);
    }
    let number = states.len() as u32;
    states.push(Numbers::from_slice(alloc, state)?)?;
    Ok(number)
}

/// Returns the place of a state in `found`, to which it is added if it is not there.
fn place_in(alloc: Global, state: &[u32], found: &mut IndexSet<Vec<u32>>) -> Result<usize, Refusal>
    ensures keys { OnOk result
        (IsWithState state.now (states_of found.old.keys) (states_of found.new.keys)) }
    ensures place { IfOk result (λ place. slice_get (states_of found.new.keys) place ≡ Some state.now) }
    ensures memory { IsOkUnless result Refusal.Memory }
{
    if let Some(place) = found.get_index_of(state) {
        return Ok(place);
    }
    let key = Vec::from_slice(alloc, state)?;
    let (place, _new) = found.insert_full(key)?;
    Ok(place)
}
