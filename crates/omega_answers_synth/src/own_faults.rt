//! Refusals of what the program found itself.

ghost use Rattle.std.specs.Prelude.{◌≡◌};
ghost use Rattle.omega_answers_synth.specs.private.Own.{unjudged_for_form, unread_for_size};

use omega_text::{AutomatonFault, Refusal, TaskFault, TextFault};

/// Returns [TaskFault::Unjudged] in place of a refusal of the form of an automaton that was found, and any other
/// refusal as it is.
pub(crate) fn unjudged_for_form(refusal: Refusal) -> Refusal
    ensures { result ≡ unjudged_for_form refusal }
{
    match refusal {
        Refusal::Task(
            TaskFault::NotParity | TaskFault::UniversalBranch | TaskFault::NotDeterministic(_),
        ) => Refusal::Task(TaskFault::Unjudged),
        _ => refusal,
    }
}

/// Returns what to say if what was made is not read as it is to be, by the refusal of it: a text or its labels are too
/// large, or it is a fault of the program.
pub(crate) fn unread_for_size(refusal: Refusal) -> Refusal
    ensures { result ≡ unread_for_size refusal }
{
    match refusal {
        Refusal::Text(TextFault::TooLong) => Refusal::Task(TaskFault::TooLarge),
        Refusal::Automaton(AutomatonFault::Expansion) => Refusal::Task(TaskFault::TooLarge),
        Refusal::Memory => Refusal::Memory,
        _ => Refusal::Task(TaskFault::Unjudged),
    }
}
