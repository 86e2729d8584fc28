ghost use Rattle.std.specs.Prelude.{◌≡◌, ◌<◌, None, length, IfNone, IfSome, slice_index_or};
ghost use Rattle.omega_hoa_automaton.specs.Automaton.{edge_at};
ghost use Rattle.omega_lang_runs.specs.Found.{IsFoundEdge};
ghost use Rattle.omega_lang_runs.specs.Places.{ArePlaces};
ghost use Rattle.omega_lang_runs.specs.Words.{index_in};

use crate::place::EdgePlace;
use omega_hoa_automaton::{Automaton, State};

/// An edge, by its state and its index there.
#[derive(Clone, Copy)]
pub struct FoundEdge<'a> {
    /// The state that the edge leaves.
    pub state: &'a State,
    /// Its index among the edges of the state, from 0.
    pub index: usize,
}

/// Returns the edge with this `number`, found by the `places` of all edges; none if there is no such edge.
pub fn edge_of<'a>(
    automaton: &'a Automaton,
    places: &[EdgePlace],
    number: u32,
) -> Option<FoundEdge<'a>>
    requires { ArePlaces automaton.now places.now }
    ensures index { IfSome result (λ found. found.index ≡ index_in automaton.now.defined number) }
    ensures within { IfSome result (λ found. found.index < length found.state.now.edges) }
    ensures edge { IfSome result (IsFoundEdge automaton.now number) }
    ensures none { IfNone result (edge_at automaton.now number ≡ None) }
{
    let at = number as usize;
    if at >= places.len() {
        return None;
    }
    let place = places[at];
    let state = state_at(automaton.defined(), place.state);
    Some(FoundEdge {
        state,
        index: place.index,
    })
}

/// Returns the state at index `at`.
fn state_at(states: &[State], at: usize) -> &State
    requires { at < length states.now }
    ensures { result.now ≡ slice_index_or states.now at result.now }
{
    &states[at]
}
