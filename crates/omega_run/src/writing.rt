ghost use Rattle.std.specs.Prelude.{◌≡◌, ◌+◌, ◌-◌, ◌^◌, ◌<◌, ◌≤◌, List, None, Result, ℕ, length};
ghost use Rattle.omega_text.specs.Limits.{most_text};
ghost use Rattle.omega_io.specs.declared.exit.Exit.{Exit};
ghost use Rattle.omega_io.specs.declared.refused.Refused.{Refused};
ghost use Rattle.omega_solve.specs.Limits.{most_lifts};
ghost use Rattle.omega_run.specs.Answers.{IsAnswer, both_texts};
ghost use Rattle.omega_run.specs.Progress.{AreProgressLines};
ghost use Rattle.omega_run.specs.Results.{with_bytes};
ghost use Rattle.omega_run.specs.Searching.{AreTurnsFor};
ghost use Rattle.omega_run.specs.World.{written_to};
ghost use Rattle.omega_run.specs.AnswerWriting.{IsWritten};
ghost use Rattle.omega_run.specs.private.steps.Telling.{HasReported};

use crate::answering::answer;
use crate::progress::ProgressLines;
use crate::texts::Texts;
use omega_answers_game::Searching;
use omega_cli_command::{Command, Task};
use omega_io::{Exit, Output, Refused, write_text};
use omega_solve::budget::{LIFTS_BETWEEN_REPORTS, NoObserver};
use std::alloc::Global;

/// Makes the whole answer of a command to its texts in memory, and then writes it. Lines of progress, if the task asks
/// for them, go to standard error; if one cannot be written, no more are. If a game is searched, `searching` says how,
/// with the turns of the searchers.
pub(crate) fn write_answer<W: Output, E: Output>(
    alloc: Global,
    command: &Command,
    task: &Task,
    texts: Texts<'_>,
    searching: &mut Searching,
    output: &mut W,
    errors: &mut E,
) -> Result<Exit, Refused>
    requires budget { task.now.budget ≤ most_lifts }
    requires turns { searching.old.turns ≡ None }
    requires limit { length texts.input.now ≤ most_text + 1 }
    requires writes { W.failed output.old < 2 ^ 64 - 1 }
    requires tells { E.failed errors.old < 2 ^ 64 - 1 }
    ensures { (made : Result (Exit × List ℕ) Refused) × (lines : List ℕ)
        × IsAnswer command.now task.now.budget (both_texts texts.entry.other.now texts.entry.input.now) made
        × AreProgressLines task.now.progress command.now task.now.budget
        (both_texts texts.entry.other.now texts.entry.input.now) made lines
        × AreTurnsFor command.now made searching.new
        × IsWritten made result (written_to W.Output output.old) (written_to W.Output output.new)
        × HasReported (E.contents errors.old) (E.contents errors.new)
        (E.failed errors.old) (E.failed errors.new) lines }
{
    if !task.progress {
        let made = answer(
            alloc,
            command,
            texts,
            task.budget,
            searching,
            &NoObserver,
            &mut (),
        );
        return write_made(made, output);
    }
    let lines = ProgressLines {
        every: LIFTS_BETWEEN_REPORTS,
        sound: errors.failures(),
    };
    let made = answer(
        alloc,
        command,
        texts,
        task.budget,
        searching,
        &lines,
        errors,
    );
    write_made(made, output)
}

/// Writes an answer that was made in memory.
pub(crate) fn write_made<W: Output>(
    made: Result<(Exit, Vec<u8>), Refused>,
    output: &mut W,
) -> Result<Exit, Refused>
    requires { W.failed output.old < 2 ^ 64 - 1 }
    ensures { IsWritten (with_bytes (λ made. made.items) made) result
        (written_to W.Output output.old) (written_to W.Output output.new) }
{
    let (exit, text) = made?;
    match write_text(output, text.as_slice()) {
        Ok(()) => Ok(exit),
        Err(refusal) => Err(Refused::from(refusal)),
    }
}
