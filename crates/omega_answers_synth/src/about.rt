//! The text that a refusal of a judge is about.

ghost use Rattle.std.specs.Prelude.{◌≡◌};
ghost use Rattle.omega_answers_synth.specs.private.Reported.{counter_reported, judge_reported};

use omega_hoa_automaton::{Automaton, Refusal, has_universal_branching};
use omega_io::{Refused, Which};
use omega_text::TaskFault;

/// Makes a refusal of the judge of `controller` one of the text that it is about.
pub(crate) fn judge_reported(controller: &Automaton, refusal: Refusal) -> Refused
    ensures { result ≡ judge_reported controller.now refusal }
{
    match refusal {
        Refusal::Task(TaskFault::NotDeterministic(_)) => Refused::of(Which::File, refusal),
        Refusal::Task(TaskFault::NotParity) => Refused::of(Which::Input, refusal),
        Refusal::Task(TaskFault::UniversalBranch) => {
            if has_universal_branching(controller) {
                Refused::of(Which::Input, refusal)
            } else {
                Refused::of(Which::File, refusal)
            }
        }
        _ => Refused::from(refusal),
    }
}

/// Makes a refusal of a judge of one automaton one of the text that it is about, where a refusal of the form of an
/// automaton or of its choices is one of the automaton that is judged.
pub(crate) fn counter_reported(refusal: Refusal) -> Refused
    ensures { result ≡ counter_reported refusal }
{
    match refusal {
        Refusal::Task(
            TaskFault::NotDeterministic(_) | TaskFault::NotParity | TaskFault::UniversalBranch,
        ) => Refused::of(Which::Input, refusal),
        _ => Refused::from(refusal),
    }
}
