//! The ends of edges: the state that each leaves and the first of its targets.

ghost use Rattle.std.specs.Prelude.{◌≡◌, ◌++◌, ◌<◌, length, map, All, IfOk, IsOkUnless, OnOk};
ghost use Rattle.omega_hoa_automaton.specs.Automaton.{edges_from, edges_of};
ghost use Rattle.omega_lang_lasso_search.specs.Tabled.{ends_of};

use omega_graph::Edge;
use omega_hoa_automaton::{Automaton, Refusal, State};
use std::alloc::Global;

/// Returns the ends of the edges of `automaton`, by number.
pub(crate) fn edge_ends(alloc: Global, automaton: &Automaton) -> Result<Vec<Edge>, Refusal>
    ensures ends { IfOk result (λ ends. ends.items ≡ map ends_of (edges_of automaton.now)) }
    ensures memory { IsOkUnless result Refusal.Memory }
{
    automaton.keeps_limits();
    let mut ends = Vec::with_capacity(alloc, automaton.edge_count() as usize)?;
    for state in automaton.defined() {
        add_ends(&mut ends, state)?;
    }
    Ok(ends)
}

/// Appends the ends of the edges of `state`.
fn add_ends(ends: &mut Vec<Edge>, state: &State) -> Result<(), Refusal>
    requires { All (λ edge. 0 < length edge.targets) state.now.edges }
    ensures ends { OnOk result
        (ends.new.items ≡ ends.old.items ++ map ends_of (edges_from state.now)) }
    ensures memory { IsOkUnless result Refusal.Memory }
{
    for at in 0..state.edges.len() {
        let edge = state.edges.edge(at);
        ends.push(Edge {
            from: state.number,
            to: edge.targets()[0],
        })?;
    }
    Ok(())
}
