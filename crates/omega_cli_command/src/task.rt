ghost use Rattle.std.specs.Prelude.{◌≡◌, IfErr, IfOk};
ghost use Rattle.omega_cli_command.specs.declared.mistake.Mistake.TheVariants as mistake;
ghost use Rattle.omega_cli_command.specs.private.Tasks.{IsTaskWithFile, default_task};

use crate::command::Command;
use crate::limits::MOST_BUDGET;
use crate::mistake::Mistake;
use crate::other::Other;
use crate::source::Source;
use crate::two_texts::TwoTexts;
use std::alloc::Global;

/// A command, the texts that it is about, and how it is to be run.
#[derive(Debug, Drop)]
pub struct Task {
    /// What is done with the texts.
    pub command: Command,
    /// Whether the beginning of the input's text tells its format. If the text is of automata, the command is that of
    /// [Command::for_automata], and if it is of a circuit, that of [Command::for_circuits].
    pub by_text: bool,
    /// The source of the input.
    pub source: Source,
    /// The most lifts of each run of a solver, at most `MOST_BUDGET`.
    pub budget: u64,
    /// Whether the progress of a solver is reported on standard error.
    pub progress: bool,
    /// Whether games, and solutions of them, are read as other tools write them.
    pub lenient: bool,
    /// Whether a refusal is written with the text or the file that it is about.
    pub verbose: bool,
}

impl Task {
    /// Returns the task of `command` on standard input, with the greatest budget and no flag.
    pub(crate) fn of(command: Command) -> Task
        ensures { result ≡ default_task command }
    {
        Task {
            command,
            by_text: false,
            source: Source::Input,
            budget: MOST_BUDGET,
            progress: false,
            lenient: false,
            verbose: false,
        }
    }

    /// Returns the task of `asked` about the text of standard input and that of the file of this name.
    pub(crate) fn with_file<'a>(
        alloc: Global,
        asked: TwoTexts,
        name: &str,
    ) -> Result<Task, Mistake<'a>>
        ensures task { IfOk result (IsTaskWithFile asked name.now) }
        ensures memory { IfErr result (λ found. found ≡ mistake.Memory) }
    {
        let other = Other::of_file(alloc, name)?;
        Ok(Task::of(Command::TwoTexts(asked, other)))
    }
}
