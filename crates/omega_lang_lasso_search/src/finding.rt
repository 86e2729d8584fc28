//! An accepting lasso for any acceptance formula, found by a search of the automaton itself.
ghost use Rattle.std.specs.Prelude.{◌≡◌, false, IfErr, IfNone, IfOk, IfSome, IsOkUnless, OnOk, length};
ghost use Rattle.omega_hoa_automaton.specs.Automaton.{Description};
ghost use Rattle.omega_hoa_automaton.specs.Branching.{has_universal_branching};
ghost use Rattle.omega_graph.specs.Graph.{AreEdges};
ghost use Rattle.omega_lang_runs.specs.Verdict.{IsVerdict};
ghost use Rattle.omega_lang_lasso_search.specs.Searching.{IsSearchRefusal, IsSearchable};
ghost use Rattle.omega_lang_lasso_search.specs.TableLassos.{IsTableVerdict};
ghost use Rattle.omega_lang_lasso_search.specs.Tabled.{AreUsableEdges};
ghost use Rattle.omega_lang_lasso_search.specs.private.Searched.{IsAcceptingCycle, IsGiven};
ghost use Rattle.omega_lang_lasso_search.specs.private.Searched.{IsGivenOf, IsSearch, IsVerdictOf};
ghost use Rattle.omega_lang_lasso_search.specs.private.Searched.{Reaches, beginning, edges_leaving};

use crate::ends::edge_ends;
use crate::given::Given;
use crate::marks::edge_marks;
use crate::numbering::{first_states, number_states};
use crate::search::LassoSearch;
use crate::turning::shortest_lasso;
use crate::usable::usable_edges;
use omega_graph::{Edge, Graph, path, reached_flags};
use omega_graph_accepting_walk::accepting_walk;
use omega_graph_search::numbers_below;
use omega_hoa_acceptance::Acc;
use omega_hoa_automaton::{Automaton, Refusal, has_universal_branching};
use omega_lang_runs::Verdict;
use omega_text::{Numbers, TaskFault};
use std::alloc::Global;

/// Returns an accepting lasso of `automaton`, or `Empty` if no lasso accepts, whatever its acceptance formula and name.
///
/// Fails with [TaskFault::UniversalBranch] if a start or an edge lists several states. Otherwise fails with
/// [TaskFault::TooManyPropositions] if a label mentions over `MOST_MENTIONED` propositions and `is_satisfiable` gives
/// it up.
///
/// Takes the time of `is_satisfiable` for each label, and of `accepting_walk` on the usable edges. If no start leads to
/// the closed walk that is found, takes the time of `accepting_walk` on the reachable usable edges too.
pub fn lasso(alloc: Global, automaton: &Automaton) -> Result<Verdict, Refusal>
    ensures verdict { IfOk result (IsVerdict automaton.now) }
    ensures given { OnOk result (IsSearchable automaton.now) }
    ensures refused { IfErr result (IsSearchRefusal automaton.now) }
{
    if has_universal_branching(automaton) {
        return Err(Refusal::Task(TaskFault::UniversalBranch));
    }
    let edges = usable_edges(alloc, automaton)?;
    let verdict = found_by(alloc, automaton, edges.as_slice())?;
    Ok(verdict)
}

/// Returns an accepting lasso of the graph with these starts, and with edges of these ends and marks, or `Empty` if no
/// lasso accepts by `formula`. Marks may be listed in any order, and twice. What the verdict says of automata is
/// `laws::table_verdicts_are_of_automata`.
///
/// Fails for want of memory alone, and so also if there are 2^32 - 1 edges or more. Takes the time of `lasso`, but that
/// no label is judged.
pub fn lasso_in_table(
    alloc: Global,
    starts: &[u32],
    ends: &[Edge],
    marks: &[Numbers],
    formula: &Acc,
) -> Result<Verdict, Refusal>
    requires { length marks.now ≡ length ends.now }
    ensures verdict { IfOk result (IsTableVerdict starts.now ends.now marks.now formula.now) }
    ensures memory { IsOkUnless result Refusal.Memory }
{
    if ends.len() > u32::MAX as usize {
        return Err(Refusal::Memory);
    }
    let edges = numbers_below(alloc, ends.len() as u32)?;
    let given = Given {
        starts,
        ends,
        marks,
        edges: edges.as_slice(),
        formula,
    };
    let verdict = verdict_by_search(alloc, &given)?;
    Ok(verdict)
}

/// Returns the verdict on `automaton`, given its usable `edges`.
fn found_by(alloc: Global, automaton: &Automaton, edges: &[u32]) -> Result<Verdict, Refusal>
    requires plain { has_universal_branching automaton.now ≡ false }
    requires usable { AreUsableEdges automaton.now edges.now }
    ensures verdict { IfOk result (IsVerdict automaton.now) }
    ensures memory { IsOkUnless result Refusal.Memory }
{
    automaton.keeps_limits();
    let ends = edge_ends(alloc, automaton)?;
    let marks = edge_marks(alloc, automaton)?;
    let starts = first_states(alloc, automaton.starts())?;
    let given = Given {
        starts: starts.as_slice(),
        ends: ends.as_slice(),
        marks: marks.as_slice(),
        edges,
        formula: automaton.acceptance(),
    };
    let verdict = verdict_by_search(alloc, &given)?;
    Ok(verdict)
}

/// Returns the verdict on each automaton of which this is the table.
fn verdict_by_search(alloc: Global, given: &Given<'_>) -> Result<Verdict, Refusal>
    requires { IsGiven given.now }
    ensures verdict { IfOk result
        (λ verdict. (a : Description) → IsGivenOf a given.now → IsVerdict a verdict) }
    ensures memory { IsOkUnless result Refusal.Memory }
{
    let numbered = number_states(alloc, given.starts, given.ends)?;
    let search = LassoSearch {
        marks: given.marks,
        graph: &numbered.graph,
        sources: numbered.sources.as_slice(),
        edges: given.edges,
        formula: given.formula,
    };
    let verdict = found_in(alloc, &search)?;
    Ok(verdict)
}

/// Returns the verdict of a search. Looks for a closed walk among all its edges. If no source leads to the one that is
/// found, looks again among the edges that a source reaches.
fn found_in(alloc: Global, search: &LassoSearch<'_>) -> Result<Verdict, Refusal>
    requires { IsSearch search.now }
    ensures verdict { IfOk result (IsVerdictOf search.now) }
    ensures memory { IsOkUnless result Refusal.Memory }
{
    let found = accepting_walk(
        alloc,
        search.graph,
        search.marks,
        search.edges,
        search.formula,
    )?;
    match found {
        None => Ok(Verdict::Empty),
        Some(cycle) => match with_stem(alloc, search, cycle.as_slice())? {
            Some(verdict) => Ok(verdict),
            None => found_among_reached(alloc, search),
        },
    }
}

/// Returns the verdict of a search, looking for a closed walk among its edges that a source reaches.
fn found_among_reached(alloc: Global, search: &LassoSearch<'_>) -> Result<Verdict, Refusal>
    requires { IsSearch search.now }
    ensures verdict { IfOk result (IsVerdictOf search.now) }
    ensures memory { IsOkUnless result Refusal.Memory }
{
    let states = reached_flags(alloc, search.graph, search.edges, search.sources)?;
    let flags = states.as_slice();
    let edges = numbers_leaving(alloc, search.graph, search.edges, flags)?;
    let kept = edges.as_slice();
    let found = accepting_walk(alloc, search.graph, search.marks, kept, search.formula)?;
    match found {
        None => Ok(Verdict::Empty),
        Some(cycle) => {
            let walk = cycle.as_slice();
            match with_stem(alloc, search, walk)? {
                Some(verdict) => Ok(verdict),
                None => unreachable!(),
            }
        }
    }
}

/// Returns the lasso of `cycle` with a shortest stem to its first edge, by breadth-first search. Returns none if no
/// source leads there.
fn with_stem(
    alloc: Global,
    search: &LassoSearch<'_>,
    cycle: &[u32],
) -> Result<Option<Verdict>, Refusal>
    requires ready { IsSearch search.now }
    requires cycle { IsAcceptingCycle search.now cycle.now }
    ensures verdict { IfOk result (λ found. IfSome found (IsVerdictOf search.now)) }
    ensures none { IfOk result
        (λ found. IfNone found (¬ Reaches search.now (beginning search.now cycle.now))) }
    ensures memory { IsOkUnless result Refusal.Memory }
{
    let target = search.graph.from(cycle[0]);
    match path(alloc, search.graph, search.edges, search.sources, target)? {
        None => Ok(None),
        Some(stem) => {
            let verdict = shortest_lasso(alloc, stem.as_slice(), cycle)?;
            Ok(Some(verdict))
        }
    }
}

/// Returns those of `numbers` whose edges leave a state with a flag in `states`.
fn numbers_leaving(
    alloc: Global,
    graph: &Graph,
    numbers: &[u32],
    states: &[bool],
) -> Result<Vec<u32>, Refusal>
    requires edges { AreEdges graph.now numbers.now }
    requires states { length states.now ≡ graph.now.states }
    ensures left { IfOk result
        (λ edges. edges.items ≡ edges_leaving states.now graph.now numbers.now) }
    ensures memory { IsOkUnless result Refusal.Memory }
{
    let mut edges = Vec::with_capacity(alloc, numbers.len())?;
    for number in numbers {
        if states[graph.from(*number) as usize] {
            edges.push(*number)?;
        }
    }
    Ok(edges)
}
