//! Laws of all texts, for the proofs of callers: each function does nothing and states one law.

ghost use Rattle.omega_hoa_diagnostics.specs.Laws.{CausesAreOfRefusals};

use omega_hoa::{automata_are_unrefused, automata_fill_segments, refusals_are_one};
use omega_hoa_automaton::{faults_are_least, meanings_are_there};

/// States that the line for a text is about the fault for which the text is refused, and that there is a line if that
/// is [AutomatonFault::StateRange], [AutomatonFault::SetRange], [AutomatonFault::Alias] or
/// [AutomatonFault::StateTwice].
pub fn causes_are_of_refusals()
    ensures { CausesAreOfRefusals }
{
    automata_fill_segments();
    automata_are_unrefused();
    refusals_are_one();
    meanings_are_there();
    faults_are_least();
}
