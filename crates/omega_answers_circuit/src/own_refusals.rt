//! Refusals of what the program made itself.

ghost use Rattle.std.specs.Prelude.{◌≡◌};
ghost use Rattle.omega_answers_circuit.specs.OwnCircuit.{unjudged_refusal};
ghost use Rattle.omega_answers_synth.specs.private.Own.{unread_for_size};

use omega_text::{AutomatonFault, Refusal, TaskFault, TextFault};

/// Returns what to say if a text that was written is not read, by the refusal of it: the text or its labels are too
/// large, or it is a fault of the program.
pub(crate) fn unread_for_size(refusal: Refusal) -> Refusal
    ensures { result ≡ unread_for_size refusal }
{
    match refusal {
        Refusal::Text(TextFault::TooLong) => Refusal::Task(TaskFault::TooLarge),
        Refusal::Automaton(AutomatonFault::Expansion) => Refusal::Task(TaskFault::TooLarge),
        Refusal::Memory => Refusal::Memory,
        _ => Refusal::Task(TaskFault::Unjudged),
    }
}

/// Returns what to say if a circuit that was made is not judged, by the refusal of the judge: a limit is passed, memory
/// is wanting, or it is a fault of the program.
pub(crate) fn unjudged_refusal(refusal: Refusal) -> Refusal
    ensures { result ≡ unjudged_refusal refusal }
{
    match refusal {
        Refusal::Task(TaskFault::TooLarge) => Refusal::Task(TaskFault::TooLarge),
        Refusal::Task(TaskFault::TooManyPropositions) => {
            Refusal::Task(TaskFault::TooManyPropositions)
        }
        Refusal::Memory => Refusal::Memory,
        _ => Refusal::Task(TaskFault::Unjudged),
    }
}
