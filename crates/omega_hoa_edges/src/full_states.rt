//! States without labels that have an edge for each valuation.

ghost use Rattle.std.specs.Prelude.{◌≡◌, is_none};
ghost use Rattle.std.specs.List.{list_all};
ghost use Rattle.omega_hoa_edges.specs.Labels.{is_full as has_all_edges};

use omega_hoa_automaton::State;

/// Whether `state` has an edge for each valuation of `count` propositions, and no labels.
pub fn is_full(count: usize, state: &State) -> bool
    ensures { result ≡ has_all_edges count state.now }
{
    let edges = state.edges.len();
    if state.label.is_some() {
        return false;
    }
    if count >= 64 {
        return false;
    }
    if !has_no_labels(state) {
        return false;
    }
    edges == 1 << count
}

/// Whether no edge of `state` has a label.
fn has_no_labels(state: &State) -> bool
    ensures { result ≡ list_all (λ edge. is_none edge.label) state.now.edges }
{
    for at in 0..state.edges.len() {
        if state.edges.edge(at).label().is_some() {
            return false;
        }
    }
    true
}
