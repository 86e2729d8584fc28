ghost use Rattle.std.specs.Prelude.{◌≡◌, ◌-◌, ◌^◌, ◌<◌, ◌≤◌};
ghost use Rattle.omega_solve.specs.Limits.{most_lifts};
ghost use Rattle.omega_run.specs.Run.{IsRun};
ghost use Rattle.omega_run.specs.World.{streams_of};

use crate::answering::answer;
use crate::obeying::write_stream;
use crate::texts::Texts;
use crate::writing::write_made;
use omega_answers_game::Searching;
use omega_cli_command::Command;
use omega_io::{Exit, Input, Output, Refused, read_all};
use omega_solve::budget::NoObserver;
use std::alloc::Global;

/// Reads the input, makes the whole answer of a command to its text in memory, and then writes it. `other` is the other
/// text of a command of two. Each run of a solver makes at most `budget` lifts.
///
/// Refused with [Refusal::Memory], with [Refusal::Io] if a read or a write fails, or as the command refuses its texts.
/// After a failed write a beginning of the answer was written, and after every other refusal nothing.
pub fn run_command<R: Input, W: Output>(
    alloc: Global,
    command: &Command,
    other: &[u8],
    input: &mut R,
    output: &mut W,
    budget: u64,
) -> Result<Exit, Refused>
    requires budget { budget ≤ most_lifts }
    requires reads { R.failed input.old < 2 ^ 64 - 1 }
    requires writes { W.failed output.old < 2 ^ 64 - 1 }
    ensures { IsRun command.now budget other.now result
        (streams_of R.Input W.Output input.old output.old)
        (streams_of R.Input W.Output input.new output.new) }
{
    if let Command::Stream(stream) = command {
        return match write_stream(alloc, *stream, budget, input, output) {
            Ok(exit) => Ok(exit),
            Err(refusal) => Err(Refused::from(refusal)),
        };
    }
    match read_all(alloc, input) {
        Ok(text) => {
            let input = text.as_slice();
            let mut searching = Searching::in_turns();
            let made = answer(
                alloc,
                command,
                Texts { other, input },
                budget,
                &mut searching,
                &NoObserver,
                &mut (),
            );
            write_made(made, output)
        }
        Err(refusal) => Err(Refused::from(refusal)),
    }
}
