//! A task is done with texts that are in memory.
ghost use Rattle.std.specs.Prelude.{◌≡◌, ◌+◌, ◌-◌, ◌^◌, ◌<◌, ◌≤◌, IfNone, IfSome, length, take};
ghost use Rattle.omega_cli_command.specs.Formats.{for_automata, for_circuits};
ghost use Rattle.omega_text.specs.Limits.{most_text};
ghost use Rattle.omega_solve.specs.Limits.{most_lifts};
ghost use Rattle.omega_run.specs.Answers.{both_texts};
ghost use Rattle.omega_run.specs.Held.{IsAnswered, IsReadSo, IsReportedSo};
ghost use Rattle.omega_run.specs.Obey.{IsCommandFor, IsDoneForFormat, IsDoneWithTexts};
ghost use Rattle.omega_io.specs.Exit.{status_of};
ghost use Rattle.omega_run.specs.Results.{plain};
ghost use Rattle.omega_run.specs.World.{tells_of, written_to};

use crate::causes::cause_about;
use crate::format::format_of;
use crate::formulas::run_formulas;
use crate::lenient::strict_texts;
use crate::reporting::{lines_about, report_lines};
use crate::searching::tell_search;
use crate::texts::{Held, Texts};
use crate::writing::write_answer;
use omega_answers_game::Searching;
use omega_cli_command::{Command, Format, Task};
use omega_io::{Exit, Failure, Output, Refused, exit_code, failure_of};
use omega_text::MOST_TEXT;
use std::alloc::Global;

/// Does a task with its texts, and returns the status to end with. The command is that for the format that the input's
/// text tells, if it is to tell it. Formulas are asked of the text as it is.
pub(crate) fn run_texts<W: Output, E: Output>(
    alloc: Global,
    task: &Task,
    texts: Texts<'_>,
    output: &mut W,
    errors: &mut E,
) -> u8
    requires budget { task.now.budget ≤ most_lifts }
    requires limit { length texts.input.now ≤ most_text + 1 }
    requires writes { W.failed output.old < 2 ^ 64 - 1 }
    requires tells { E.failed errors.old < 2 ^ 64 - 1 }
    ensures { IsDoneWithTexts task.now texts.entry.other.now texts.entry.input.now result
        (tells_of E.Output errors.old errors.new)
        (written_to W.Output output.old) (written_to W.Output output.new) }
{
    match &task.command {
        Command::Formulas(asked, formulas) => {
            let formulas = formulas.as_slice();
            let verbose = task.verbose;
            run_formulas(
                alloc,
                *asked,
                formulas,
                verbose,
                texts.input,
                output,
                errors,
            )
        }
        Command::OneText(_) => run_for_format(alloc, task, texts, output, errors),
        Command::Stream(_) => run_for_format(alloc, task, texts, output, errors),
        Command::TwoTexts(_, _) => run_for_format(alloc, task, texts, output, errors),
        Command::Synthesis(_, _) => run_for_format(alloc, task, texts, output, errors),
        Command::FormulaJudge(_, _, _) => run_for_format(alloc, task, texts, output, errors),
    }
}

/// Does a task with its texts, by the command for the format that the input's text tells, if it is to tell it.
fn run_for_format<W: Output, E: Output>(
    alloc: Global,
    task: &Task,
    texts: Texts<'_>,
    output: &mut W,
    errors: &mut E,
) -> u8
    requires budget { task.now.budget ≤ most_lifts }
    requires limit { length texts.input.now ≤ most_text + 1 }
    requires writes { W.failed output.old < 2 ^ 64 - 1 }
    requires tells { E.failed errors.old < 2 ^ 64 - 1 }
    ensures { IsDoneForFormat task.now texts.entry.other.now texts.entry.input.now result
        (tells_of E.Output errors.old errors.new)
        (written_to W.Output output.old) (written_to W.Output output.new) }
{
    match command_by_text(task, texts.input) {
        Some(command) => run_reading(alloc, &command, task, texts, output, errors),
        None => run_reading(alloc, &task.command, task, texts, output, errors),
    }
}

/// Returns the command for automata or for circuits in place of that of a task, if the text is to tell the format and
/// tells it so.
fn command_by_text(task: &Task, text: &[u8]) -> Option<Command>
    requires { length text.now ≤ most_text + 1 }
    ensures other { IfSome result (IsCommandFor task.now task.now.by_text text.now) }
    ensures same { IfNone result (IsCommandFor task.now task.now.by_text text.now task.now.command) }
{
    if !task.by_text {
        return None;
    }
    match format_of(text) {
        Format::Pg => None,
        Format::Hoa => command_for_automata(&task.command),
        Format::Aiger => command_for_circuits(&task.command),
    }
}

/// Returns the command for automata in place of one for games, if there is one.
fn command_for_automata(command: &Command) -> Option<Command>
    ensures other { IfSome result (λ found. found ≡ for_automata command.now) }
    ensures same { IfNone result (for_automata command.now ≡ command.now) }
{
    match command {
        Command::OneText(one) => Some(Command::OneText(*one).for_automata()),
        Command::Stream(_) => None,
        Command::TwoTexts(_, _) => None,
        Command::Formulas(_, _) => None,
        Command::Synthesis(_, _) => None,
        Command::FormulaJudge(_, _, _) => None,
    }
}

/// Returns the command for circuits in place of one for games, if there is one.
fn command_for_circuits(command: &Command) -> Option<Command>
    ensures other { IfSome result (λ found. found ≡ for_circuits command.now) }
    ensures same { IfNone result (for_circuits command.now ≡ command.now) }
{
    match command {
        Command::OneText(one) => Some(Command::OneText(*one).for_circuits()),
        Command::Stream(_) => None,
        Command::TwoTexts(_, _) => None,
        Command::Formulas(_, _) => None,
        Command::Synthesis(_, _) => None,
        Command::FormulaJudge(_, _, _) => None,
    }
}

/// Does a command of a task with its texts. If they are read leniently, strict texts are read in their place.
fn run_reading<'a, W: Output, E: Output>(
    alloc: Global,
    command: &'a Command,
    task: &Task,
    texts: Texts<'a>,
    output: &mut W,
    errors: &mut E,
) -> u8
    requires budget { task.now.budget ≤ most_lifts }
    requires limit { length texts.input.now ≤ most_text + 1 }
    requires writes { W.failed output.old < 2 ^ 64 - 1 }
    requires tells { E.failed errors.old < 2 ^ 64 - 1 }
    ensures { IsReadSo task.now.lenient task.now command.now
        (both_texts texts.entry.other.now texts.entry.input.now) result
        (tells_of E.Output errors.old errors.new)
        (written_to W.Output output.old) (written_to W.Output output.new) }
{
    let held = Held {
        command,
        written: texts,
        read: texts,
    };
    if !task.lenient {
        return run_held(alloc, held, task, output, errors);
    }
    match strict_texts(alloc, command, texts) {
        Ok((other, input)) => {
            let read = Texts {
                other: other.as_slice(),
                input: within_limit(input.as_slice()),
            };
            let held = Held {
                command,
                written: texts,
                read,
            };
            run_held(alloc, held, task, output, errors)
        }
        Err(refused) => {
            let failure = failure_of(None, output);
            report_run(alloc, Err(refused), held, task, failure, errors)
        }
    }
}

/// Writes the answer to the texts that are read, and the lines of a refusal.
fn run_held<W: Output, E: Output>(
    alloc: Global,
    held: Held<'_>,
    task: &Task,
    output: &mut W,
    errors: &mut E,
) -> u8
    requires budget { task.now.budget ≤ most_lifts }
    requires limit { length held.read.input.now ≤ most_text + 1 }
    requires writes { W.failed output.old < 2 ^ 64 - 1 }
    requires tells { E.failed errors.old < 2 ^ 64 - 1 }
    ensures { IsAnswered task.now held.entry.command.now
        (both_texts held.entry.written.other.now held.entry.written.input.now)
        (both_texts held.entry.read.other.now held.entry.read.input.now) result
        (tells_of E.Output errors.old errors.new)
        (written_to W.Output output.old) (written_to W.Output output.new) }
{
    let sound = errors.failures();
    let mut searching = Searching::in_turns();
    let outcome = write_answer(
        alloc,
        held.command,
        task,
        held.read,
        &mut searching,
        output,
        errors,
    );
    tell_search(errors, sound, task.verbose, searching);
    if errors.failures() > sound {
        // The lines of progress and of the search broke off, and those of a refusal are of the same text.
        return status_of(outcome);
    }
    let failure = failure_of(None, output);
    report_run(alloc, outcome, held, task, failure, errors)
}

/// Writes the lines of a refusal, with its cause, and returns the status after the outcome.
fn report_run<E: Output>(
    alloc: Global,
    outcome: Result<Exit, Refused>,
    held: Held<'_>,
    task: &Task,
    failure: Failure,
    errors: &mut E,
) -> u8
    requires { E.failed errors.old < 2 ^ 64 - 1 }
    ensures { IsReportedSo task.now held.entry.command.now
        (both_texts held.entry.written.other.now held.entry.written.input.now)
        (both_texts held.entry.read.other.now held.entry.read.input.now) failure outcome result
        (tells_of E.Output errors.old errors.new) }
{
    match outcome {
        Ok(exit) => exit_code(&Ok(exit)),
        Err(refused) => {
            let lines = lines_about(alloc, held.command, task.verbose, failure, refused);
            let cause = cause_about(alloc, held, task.by_text, task.verbose, refused);
            report_lines(refused.refusal, lines, cause.as_slice(), errors)
        }
    }
}

/// Returns the status after an outcome.
fn status_of(outcome: Result<Exit, Refused>) -> u8
    ensures { result ≡ status_of (plain outcome) }
{
    match outcome {
        Ok(exit) => exit_code(&Ok(exit)),
        Err(refused) => exit_code(&Err(refused.refusal)),
    }
}

/// Returns a text up to the first byte past the greatest length of a text.
pub(crate) fn within_limit(text: &[u8]) -> &[u8]
    ensures cut { result.now ≡ take (most_text + 1) text.now }
    ensures limit { length result.now ≤ most_text + 1 }
{
    if text.len() > MOST_TEXT {
        &text[..MOST_TEXT + 1]
    } else {
        text
    }
}
