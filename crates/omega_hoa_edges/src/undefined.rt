ghost use Rattle.std.specs.Prelude.{◌≡◌};
ghost use Rattle.omega_hoa_edges.specs.AutomatonLabels.{undefined};

use omega_hoa_automaton::{Edges, State, StateName};
use omega_text::{Numbers, Seq};
use std::alloc::Global;

/// Makes the state for a number that the body does not define: it has no edges.
pub fn undefined_state(alloc: Global, number: u32) -> State
    ensures { result ≡ undefined number }
{
    State {
        label: None,
        number,
        name: StateName::absent(),
        marks: Numbers::new(),
        edges: Edges::from_seq(Seq::new(alloc)),
    }
}
