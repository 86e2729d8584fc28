ghost use Rattle.omega_hoa_automaton.specs.private.layout.Body.{AreCountsOf};

use crate::judging::propositions::proposition_count;
use crate::judging::sets::set_count;
use crate::judging::states::state_count;
use omega_hoa_syntax::RawAutomaton;

/// The counts that the numbers of a text are below.
#[derive(Clone, Copy)]
pub(crate) struct Counts {
    pub states: u32,
    pub sets: u32,
    pub propositions: u32,
}

/// Returns the counts of an automaton that is written.
pub(crate) fn counts_of(raw: &RawAutomaton) -> Counts
    ensures { AreCountsOf raw.now result }
{
    Counts {
        states: state_count(raw),
        sets: set_count(raw),
        propositions: proposition_count(raw),
    }
}
