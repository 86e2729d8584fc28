//! The tasks of commands that take a text of several formats, and the format that is left to the text.
ghost use Rattle.std.specs.Prelude.{◌≡◌, ◌≢◌, IfErr, IfOk, false, true};
ghost use Rattle.omega_cli_command.specs.Formats.{AsksOfAny, LeavesFormat};
ghost use Rattle.omega_cli_command.specs.Mistakes.{IsMistake};
ghost use Rattle.omega_cli_command.specs.Subcommands.{HasOption};
ghost use Rattle.omega_cli_command.specs.Task.{AsksFor};
ghost use Rattle.omega_cli_command.specs.declared.one_text.OneText.TheVariants as one;
ghost use Rattle.omega_cli_command.specs.declared.options.OptionName.TheVariants as name;
ghost use Rattle.omega_cli_command.specs.declared.subcommand.Subcommand.{Subcommand};
ghost use Rattle.omega_cli_command.specs.private.Tasks.{task_by_text};

use crate::command::Command;
use crate::format::Format;
use crate::mistake::Mistake;
use crate::one_text::OneText;
use crate::options::Options;
use crate::source::names_file;
use crate::task::Task;
use crate::values::format_in;

/// Returns the task of `game`, a command of games, or of that of automata or of circuits in its place, or what is wrong
/// with the format. It is that of `options`, or is left to the text of the file that the operand names.
pub(crate) fn formatted_task<'a>(
    options: &Options<'_, 'a>,
    game: OneText,
) -> Result<Task, Mistake<'a>>
    ensures asked { (subcommand : Subcommand) → AsksOfAny subcommand options.now game
        → game ≢ one.DrawGame → IfOk result (AsksFor subcommand options.now) }
    ensures mistaken { (subcommand : Subcommand) → HasOption subcommand name.Format
        → IfErr result (IsMistake subcommand options.now) }
{
    if leaves_format(options) {
        return Ok(task_by_text(game));
    }
    match format_in(options)? {
        Format::Pg => Ok(Task::of(Command::OneText(game))),
        Format::Hoa => Ok(Task::of(Command::OneText(game).for_automata())),
        Format::Aiger => Ok(Task::of(Command::OneText(game).for_circuits())),
    }
}

/// Returns the task of `game`, a command of games, or of that of another format in its place: the text tells which.
pub(crate) fn task_by_text(game: OneText) -> Task
    ensures { result ≡ task_by_text game }
{
    Task {
        by_text: true,
        ..Task::of(Command::OneText(game))
    }
}

/// Whether no format is given, and the operand names a file, whose text may tell it.
pub(crate) fn leaves_format(options: &Options<'_, '_>) -> bool
    ensures left { result ≡ true → LeavesFormat options.now }
    ensures told { result ≡ false → LeavesFormat options.now → ⊥ }
{
    options.format.is_none() && names_file(options)
}
