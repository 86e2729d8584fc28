//! The states that kept edges lead to.

ghost use Rattle.std.specs.Prelude.{◌≡◌, IfOk, IsOkUnless, false, length};
ghost use Rattle.omega_hoa_automaton.specs.Branching.{has_universal_branching};
ghost use Rattle.omega_synth_text.specs.Reaching.{TellsReached};
ghost use Rattle.omega_synth_text.specs.private.Parts.{flag};
ghost use Rattle.omega_synth_text.specs.private.Reached.{AreStarts};

use crate::graph::kept_graph;
use omega_graph::reached_flags;
use omega_graph_search::numbers_below;
use omega_hoa_automaton::Automaton;
use omega_text::Refusal;
use std::alloc::Global;

/// Returns for each state whether it is a start or `kept` edges lead to it from one. Linear in the states and edges.
pub(crate) fn reached_states(
    alloc: Global,
    automaton: &Automaton,
    kept: &[u32],
) -> Result<Vec<bool>, Refusal>
    requires { has_universal_branching automaton.now ≡ false }
    ensures reached { IfOk result
        (λ reached. TellsReached automaton.now kept.now (flag reached.items)) }
    ensures memory { IsOkUnless result Refusal.Memory }
{
    let graph = kept_graph(alloc, automaton, kept)?;
    let edges = numbers_below(alloc, graph.len() as u32)?;
    let starts = single_starts(alloc, automaton)?;
    reached_flags(alloc, &graph, edges.as_slice(), starts.as_slice())
}

/// Returns the states of the starts.
fn single_starts(alloc: Global, automaton: &Automaton) -> Result<Vec<u32>, Refusal>
    requires { has_universal_branching automaton.now ≡ false }
    ensures starts { IfOk result (λ starts. AreStarts automaton.now starts.items) }
    ensures memory { IsOkUnless result Refusal.Memory }
{
    automaton.keeps_limits();
    let mut starts = Vec::new(alloc);
    for start in automaton.starts() {
        starts.push(start.as_slice()[0])?;
    }
    Ok(starts)
}
