//! Laws of what `realize --controller` and `verify --specification` write, in words of texts: each call does nothing
//! and states one law.

ghost use Rattle.omega_laws.specs.WrittenControllers.{WrittenControllersAreJudgedRight};
ghost use Rattle.omega_laws.specs.WrittenControllers.{WrittenControllersAreNotAtFault};

use crate::controller_texts::controllers_are_read_back;
use omega_answers_synth::written_controllers_are_parts;
use omega_hoa::{automata_are_one, automata_are_unrefused};
use omega_hoa_automaton::meanings_are_automata;
use omega_synth_check::kept_parts_are_judged_right;

/// Shows that what `write_winner` writes as a controller for a specification is the text of an automaton, if it is
/// within the limit of texts, and that `verify_controller` answers `yes` to it, and nothing else, for that
/// specification. The premise of `yes` is that of `kept_parts_are_judged_right`.
pub fn written_controllers_are_judged_right()
    ensures { WrittenControllersAreJudgedRight }
{
    controllers_are_read_back();
    automata_are_one();
    meanings_are_automata();
    written_controllers_are_parts();
    kept_parts_are_judged_right();
}

/// Shows that no refusal of `verify_controller` is about that text or about the specification: it is want of memory, or
/// one of the limits of the judge.
pub fn written_controllers_are_not_at_fault()
    ensures { WrittenControllersAreNotAtFault }
{
    controllers_are_read_back();
    automata_are_one();
    automata_are_unrefused();
    meanings_are_automata();
}
