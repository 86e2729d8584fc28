//! Whether an automaton has the form that is promised.
ghost use Rattle.std.specs.Prelude.{◌≡◌, All, IsTrue};
ghost use Rattle.omega_ltl_deterministic.specs.Candidate.{HasOne, HasOneStart, IsCandidate, IsColoured};
ghost use Rattle.omega_ltl_deterministic.specs.Candidate.{IsColouredState, IsMinEven};

use omega_hoa_acceptance::{Order, Parity, parity_of};
use omega_hoa_automaton::{Automaton, EdgeRef, State, has_universal_branching};
use omega_text::ByteString;

/// Whether an automaton has the form of a candidate over some propositions. Passes over its edges twice.
pub(crate) fn is_candidate(automaton: &Automaton, propositions: &[ByteString]) -> bool
    ensures { IsTrue result → IsCandidate propositions.now automaton.now }
{
    if automaton.name().is_some() {
        return false;
    }
    if !are_same(automaton.propositions(), propositions) {
        return false;
    }
    if !has_one_start(automaton) {
        return false;
    }
    if !is_min_even(automaton) {
        return false;
    }
    if has_universal_branching(automaton) {
        return false;
    }
    are_coloured_states(automaton.defined())
}

/// Whether two lists of strings are the same.
pub(crate) fn are_same(one: &[ByteString], other: &[ByteString]) -> bool
    ensures { IsTrue result → one.now ≡ other.now }
{
    one == other
}

/// Whether it begins in one state.
fn has_one_start(automaton: &Automaton) -> bool
    ensures { IsTrue result → HasOneStart automaton.now }
{
    match automaton.starts() {
        [start] => is_one(start.as_slice()),
        _ => false,
    }
}

/// Whether there is one number.
fn is_one(numbers: &[u32]) -> bool
    ensures { IsTrue result → HasOne numbers.now }
{
    if numbers.len() != 1 {
        return false;
    }
    true
}

/// Whether its acceptance is `parity min even`.
fn is_min_even(automaton: &Automaton) -> bool
    ensures { IsTrue result → IsMinEven automaton.now }
{
    let Some(name) = automaton.acc_name() else {
        return false;
    };
    match parity_of(name, automaton.set_count(), automaton.acceptance()) {
        Ok(kind) => kind.order == Order::Min && kind.parity == Parity::Even,
        Err(_) => false,
    }
}

/// Whether no state has a label or marks, and each edge has a label and one mark.
fn are_coloured_states(states: &[State]) -> bool
    ensures { IsTrue result → All IsColouredState states.now }
{
    states.iter().all(|state| is_coloured_state(state))
}

/// Whether a state has no label and no marks, and each of its edges has a label and one mark.
fn is_coloured_state(state: &State) -> bool
    ensures { IsTrue result → IsColouredState state.now }
{
    if state.label.is_some() || !state.marks.as_slice().is_empty() {
        return false;
    }
    for at in 0..state.edges.len() {
        if !is_coloured(&state.edges.edge(at)) {
            return false;
        }
    }
    true
}

/// Whether an edge has a label and one mark.
fn is_coloured(edge: &EdgeRef<'_>) -> bool
    ensures { IsTrue result → IsColoured edge.now }
{
    edge.label().is_some() && edge.marks().len() == 1
}
