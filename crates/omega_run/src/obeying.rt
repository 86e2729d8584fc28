ghost use Rattle.std.specs.Prelude.{◌≡◌, ◌-◌, ◌^◌, ◌<◌, ◌≤◌, IfOk, None, option_map};
ghost use Rattle.omega_cli_command.specs.Request.{IsRunnable};
ghost use Rattle.omega_solve.specs.Limits.{most_lifts};
ghost use Rattle.omega_run.specs.Files.{operand_text, other_text};
ghost use Rattle.omega_run.specs.Obey.{IsDone, IsDoneFrom, IsObeyed, Prints};
ghost use Rattle.omega_run.specs.Pieces.{IsRunOnStream};
ghost use Rattle.omega_run.specs.World.{streams_of, tells_of, world_of, written_to};

use crate::files::{FileTexts, operand_text, other_text, read_files};
use crate::held::{run_texts, within_limit};
use crate::reporting::{report, report_file};
use crate::stream::answer_stream;
use crate::texts::Texts;
use omega_cli_command::{Command, Request, Stream, Task};
use omega_io::{Exit, Input, InputFiles, Output, Refusal, failure_of, read_all, tell, write_text};
use std::alloc::Global;

/// The status after a fault of the command line.
const FAULT: u8 = 2;

/// Does what a command line requests, and returns the status to end with.
///
/// A refusal, also one that came in place of the command line, is written in one line on standard error; but nothing is
/// written if nobody reads the pipe that is the output. If the command line says `verbose`, a second line names the
/// refused one of two texts, or the file or stream that failed, with the system's reason if it tells one. If there is
/// no memory for the lines, that of [Refusal::Memory] is written in their place. The file that the operand names is
/// read before any other.
pub fn obey<F: InputFiles, R: Input, W: Output, E: Output>(
    alloc: Global,
    asked: Result<Request, Refusal>,
    files: &F,
    input: &mut R,
    output: &mut W,
    errors: &mut E,
) -> u8
    requires runnable { IfOk asked IsRunnable }
    requires reads { R.failed input.old < 2 ^ 64 - 1 }
    requires writes { W.failed output.old < 2 ^ 64 - 1 }
    requires tells { E.failed errors.old < 2 ^ 64 - 1 }
    ensures { IsObeyed asked result (world_of F.InputFiles E.Output files.now errors.old errors.new
        (streams_of R.Input W.Output input.old output.old)
        (streams_of R.Input W.Output input.new output.new)) }
{
    match asked {
        Ok(Request::Do(task)) => do_task(alloc, &task, files, input, output, errors),
        Ok(Request::Help(text)) => {
            let outcome = print(text.as_bytes(), output);
            let failure = failure_of(input.reason(), output);
            report(alloc, outcome, false, failure, errors)
        }
        Ok(Request::Fault(text)) => {
            tell(errors, text.as_bytes());
            FAULT
        }
        Err(refusal) => {
            let failure = failure_of(input.reason(), output);
            report(alloc, Err(refusal), false, failure, errors)
        }
    }
}

/// Reads the files of a task, does it, and returns the status to end with.
fn do_task<F: InputFiles, R: Input, W: Output, E: Output>(
    alloc: Global,
    task: &Task,
    files: &F,
    input: &mut R,
    output: &mut W,
    errors: &mut E,
) -> u8
    requires budget { task.now.budget ≤ most_lifts }
    requires reads { R.failed input.old < 2 ^ 64 - 1 }
    requires writes { W.failed output.old < 2 ^ 64 - 1 }
    requires tells { E.failed errors.old < 2 ^ 64 - 1 }
    ensures { IsDone task.now result (world_of F.InputFiles E.Output files.now errors.old errors.new
        (streams_of R.Input W.Output input.old output.old)
        (streams_of R.Input W.Output input.new output.new)) }
{
    match read_files(alloc, task, files) {
        Ok(read) => do_with_files(alloc, task, &read, input, output, errors),
        Err(refused) => { report_file(alloc, refused.name, refused.unread, task.verbose, errors) }
    }
}

/// Does a task after its files were read, with standard input if neither the operand nor the command line has the text
/// of the input.
fn do_with_files<R: Input, W: Output, E: Output>(
    alloc: Global,
    task: &Task,
    read: &FileTexts,
    input: &mut R,
    output: &mut W,
    errors: &mut E,
) -> u8
    requires budget { task.now.budget ≤ most_lifts }
    requires reads { R.failed input.old < 2 ^ 64 - 1 }
    requires writes { W.failed output.old < 2 ^ 64 - 1 }
    requires tells { E.failed errors.old < 2 ^ 64 - 1 }
    ensures { IsDoneFrom
        (operand_text task.now.source (option_map (λ text. text.items) read.now.operand)) task.now
        (other_text task.now.command (option_map (λ text. text.items) read.now.other)) result
        (tells_of E.Output errors.old errors.new)
        (streams_of R.Input W.Output input.old output.old)
        (streams_of R.Input W.Output input.new output.new) }
{
    let other = other_text(&task.command, &read.other);
    match operand_text(&task.source, &read.operand) {
        Some(operand) => {
            let input = within_limit(operand);
            run_texts(alloc, task, Texts { other, input }, output, errors)
        }
        None => do_with_input(alloc, task, other, input, output, errors),
    }
}

/// Does a task with standard input. A stream is answered while it is read, unless its text has to be in memory.
fn do_with_input<R: Input, W: Output, E: Output>(
    alloc: Global,
    task: &Task,
    other: &[u8],
    input: &mut R,
    output: &mut W,
    errors: &mut E,
) -> u8
    requires budget { task.now.budget ≤ most_lifts }
    requires reads { R.failed input.old < 2 ^ 64 - 1 }
    requires writes { W.failed output.old < 2 ^ 64 - 1 }
    requires tells { E.failed errors.old < 2 ^ 64 - 1 }
    ensures { IsDoneFrom None task.now other.now result (tells_of E.Output errors.old errors.new)
        (streams_of R.Input W.Output input.old output.old)
        (streams_of R.Input W.Output input.new output.new) }
{
    let is_held = task.verbose || task.lenient || task.by_text;
    if let Command::Stream(stream) = &task.command {
        if !is_held {
            let outcome = write_stream(alloc, *stream, task.budget, input, output);
            let failure = failure_of(input.reason(), output);
            return report(alloc, outcome, false, failure, errors);
        }
    }
    match read_all(alloc, input) {
        Ok(text) => {
            let input = text.as_slice();
            run_texts(alloc, task, Texts { other, input }, output, errors)
        }
        Err(refusal) => {
            let failure = failure_of(input.reason(), output);
            report(alloc, Err(refusal), task.verbose, failure, errors)
        }
    }
}

/// Reads a stream piece by piece, makes the whole answer to it in memory, and then writes it.
pub(crate) fn write_stream<R: Input, W: Output>(
    alloc: Global,
    stream: Stream,
    budget: u64,
    input: &mut R,
    output: &mut W,
) -> Result<Exit, Refusal>
    requires budget { budget ≤ most_lifts }
    requires reads { R.failed input.old < 2 ^ 64 - 1 }
    requires writes { W.failed output.old < 2 ^ 64 - 1 }
    ensures { IsRunOnStream stream budget result
        (streams_of R.Input W.Output input.old output.old)
        (streams_of R.Input W.Output input.new output.new) }
{
    let (exit, made) = answer_stream(alloc, stream, input, budget)?;
    write_text(output, made.as_slice())?;
    Ok(exit)
}

/// Writes a text of help or of the version.
fn print<W: Output>(text: &[u8], output: &mut W) -> Result<Exit, Refusal>
    requires { W.failed output.old < 2 ^ 64 - 1 }
    ensures { Prints text.now result (written_to W.Output output.old) (written_to W.Output output.new) }
{
    write_text(output, text)?;
    Ok(Exit::Done)
}
