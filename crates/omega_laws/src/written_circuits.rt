//! A law of what `realize --aiger` and `verify --specification` write, in words of texts: the call does nothing and
//! states it.

ghost use Rattle.omega_laws.specs.WrittenCircuits.{WrittenCircuitsAreNotAtFault};

use omega_aiger::laws::{circuits_are_not_refused, circuits_of_texts_are_one};
use omega_hoa::{automata_are_one, automata_are_unrefused};

/// Shows that no refusal of `verify_circuit` is about the text of a circuit that `write_winning_circuit` returns with
/// `Exit::Done`, or about the specification for which it is returned. It is want of memory, or a limit is passed.
pub fn written_circuits_are_not_at_fault()
    ensures { WrittenCircuitsAreNotAtFault }
{
    automata_are_one();
    automata_are_unrefused();
    circuits_of_texts_are_one();
    circuits_are_not_refused();
}
