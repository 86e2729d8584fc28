ghost use Rattle.std.specs.Prelude.{◌≡◌};
ghost use Rattle.omega_answers.specs.Choice.{refused_for};

use omega_io::{Refused, Which};
use omega_text::{Refusal, TaskFault};

/// Makes [TaskFault::NotDeterministic] a refusal of `text`, and any other one that is about no text.
pub fn refused_for(text: Which, refusal: Refusal) -> Refused
    ensures { result ≡ refused_for text refusal }
{
    match refusal {
        Refusal::Task(TaskFault::NotDeterministic(_)) => Refused::of(text, refusal),
        _ => Refused::from(refusal),
    }
}
