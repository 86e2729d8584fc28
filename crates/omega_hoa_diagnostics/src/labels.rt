ghost use Rattle.std.specs.Prelude.{◌≡◌, IfOk, IsOkUnless};
ghost use Rattle.omega_hoa_edges.specs.AutomatonLabels.{labels_of as labels_of_state};

use omega_hoa_automaton::State;
use omega_hoa_edges::{EdgeLabel, edge_label};
use omega_text::Refusal;
use std::alloc::Global;

/// Returns the labels of the edges of `state`, over `count` propositions, in the order of the edges.
pub(crate) fn labels_of<'a>(
    alloc: Global,
    count: usize,
    state: &'a State,
) -> Result<Vec<EdgeLabel<'a>>, Refusal>
    ensures labels { IfOk result (λ labels. labels.items ≡ labels_of_state count state.now) }
    ensures memory { IsOkUnless result Refusal.Memory }
{
    let mut labels = Vec::with_capacity(alloc, state.edges.len())?;
    for at in 0..state.edges.len() {
        let edge = state.edges.edge(at);
        let label = edge_label(alloc, count, state, &edge, at)?;
        labels.push(label)?;
    }
    Ok(labels)
}
