//! The states in which accepting lassos start.

ghost use Rattle.std.specs.Prelude.{◌≡◌, IfOk, IsOkUnless, vec_len};
ghost use Rattle.omega_lang_lasso_search.specs.Tabled.{AreUsableEdges};
ghost use Rattle.omega_lang_trim.specs.private.Placed.{HasGoals, TellLive, shape_of};

use crate::goals::goals;
use crate::graph::reversed_graph;
use omega_graph::{Graph, reached_flags};
use omega_hoa_automaton::{Automaton, Refusal};
use omega_lang_lasso_search::edge_marks;
use std::alloc::Global;

/// Returns for each state of `graph` whether `edges` lead from it to an accepting closed walk.
pub(crate) fn live_states(
    alloc: Global,
    automaton: &Automaton,
    graph: &Graph,
    edges: &[u32],
) -> Result<Vec<bool>, Refusal>
    requires graph { graph.now ≡ shape_of automaton.now }
    requires usable { AreUsableEdges automaton.now edges.now }
    ensures count { IfOk result (λ flags. vec_len flags ≡ graph.now.states) }
    ensures live { IfOk result (λ flags. TellLive automaton.now edges.now flags.items) }
    ensures memory { IsOkUnless result Refusal.Memory }
{
    let goals = goals_of(alloc, automaton, graph, edges)?;
    let back = reversed_graph(alloc, graph)?;
    reached_flags(alloc, &back, edges, goals.as_slice())
}

/// Returns states from which `edges` lead to accepting closed walks, and to one of which they lead from each such walk.
fn goals_of(
    alloc: Global,
    automaton: &Automaton,
    graph: &Graph,
    edges: &[u32],
) -> Result<Vec<u32>, Refusal>
    requires graph { graph.now ≡ shape_of automaton.now }
    requires usable { AreUsableEdges automaton.now edges.now }
    ensures goals { IfOk result (λ goals. HasGoals automaton.now edges.now goals.items) }
    ensures memory { IsOkUnless result Refusal.Memory }
{
    let marks = edge_marks(alloc, automaton)?;
    goals(
        alloc,
        graph,
        marks.as_slice(),
        edges,
        automaton.acceptance(),
    )
}
