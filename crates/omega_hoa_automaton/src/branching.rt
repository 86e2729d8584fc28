ghost use Rattle.std.specs.Prelude.{◌≡◌, nat_lt, length};
ghost use Rattle.std.specs.List.{list_any};
ghost use Rattle.omega_hoa_automaton.specs.Branching.{has_universal_branching, state_branches};

use crate::automaton::Automaton;
use crate::state::State;

/// Whether a start or an edge lists two states or more, so that the automaton branches universally (HOA v1, section
/// 3.2). Passes over the edges up to the first that branches, or over all.
pub fn has_universal_branching(automaton: &Automaton) -> bool
    ensures { result ≡ has_universal_branching automaton.now }
{
    let at_start = start_branches(automaton);
    let in_body = body_branches(automaton);
    at_start || in_body
}

/// Whether a start lists two states or more.
fn start_branches(automaton: &Automaton) -> bool
    ensures { result ≡ list_any (λ start. nat_lt 1 (length start)) automaton.now.starts }
{
    automaton.starts().iter().any(|start| start.len() > 1)
}

/// Whether an edge lists two states or more.
fn body_branches(automaton: &Automaton) -> bool
    ensures { result ≡ list_any state_branches automaton.now.defined }
{
    automaton
        .defined()
        .iter()
        .any(|state| state_branches(state))
}

/// Whether an edge of `state` lists two states or more.
fn state_branches(state: &State) -> bool
    ensures { result ≡ state_branches state.now }
{
    for at in 0..state.edges.len() {
        if state.edges.edge(at).targets().len() > 1 {
            return true;
        }
    }
    false
}
