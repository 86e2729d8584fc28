//! Where the edges of a state stand in an automaton.

ghost use Rattle.std.specs.Prelude.{◌≡◌, ◌+◌};
ghost use Rattle.omega_hoa_diagnostics.specs.private.Found.{IsRowFound};

use omega_hoa_automaton::{Automaton, State};

/// A state of the body, and the number of its first edge.
#[derive(Clone, Copy)]
pub(crate) struct StateRow<'a> {
    pub(crate) before: usize,
    pub(crate) state: &'a State,
}

impl<'a> StateRow<'a> {
    /// Returns the number of the edge at an index among those of the state.
    pub(crate) fn edge_number(self, index: usize) -> u128
        ensures { result ≡ self.entry.before + index }
    {
        self.before as u128 + index as u128
    }
}

/// Returns the state with the number `number`, if the body defines it. Linear in the states.
pub(crate) fn row_of(automaton: &Automaton, number: usize) -> Option<StateRow<'_>>
    ensures { IsRowFound automaton.now number result }
{
    let _total = automaton.edge_count();
    let mut before = 0_usize;
    for state in automaton.defined() {
        if state.number as usize == number {
            return Some(StateRow { before, state });
        }
        before += state.edges.len();
    }
    None
}
