//! The task that `canon` requests.
ghost use Rattle.std.specs.Prelude.{◌≢◌, IfErr, IfOk, None};
ghost use Rattle.omega_cli_command.specs.Implied.{ImpliesFormat};
ghost use Rattle.omega_cli_command.specs.Mistakes.{IsMistake};
ghost use Rattle.omega_cli_command.specs.Options.{GivesFormat, text_of};
ghost use Rattle.omega_cli_command.specs.Task.{AsksFor};
ghost use Rattle.omega_cli_command.specs.Values.{GivesFlag};
ghost use Rattle.omega_cli_command.specs.declared.format.Format.TheVariants.{Pg};
ghost use Rattle.omega_cli_command.specs.declared.options.OptionName.TheVariants as name;
ghost use Rattle.omega_cli_command.specs.declared.subcommand.Subcommand.TheVariants as sub;

use crate::command::Command;
use crate::format::Format;
use crate::mistake::Mistake;
use crate::one_text::OneText;
use crate::options::{OptionName, Options};
use crate::stream::Stream;
use crate::task::Task;
use crate::tasks::formats::{leaves_format, task_by_text};
use crate::values::{format_in, identifier_in, is_set};

/// Returns the task that `canon` requests with `options`, or what is wrong with them.
pub(crate) fn canon_task<'a>(options: &Options<'_, 'a>) -> Result<Task, Mistake<'a>>
    requires { ImpliesFormat sub.Canon options.now None }
    ensures asked { IfOk result (AsksFor sub.Canon options.now) }
    ensures mistaken { IfErr result (IsMistake sub.Canon options.now) }
{
    let min = is_set(OptionName::Min, options.min)?;
    let binary = is_set(OptionName::Binary, options.binary)?;
    if leaves_format(options) {
        return Ok(task_by_text(OneText::Canon));
    }
    match format_in(options)? {
        Format::Pg => game_task(options, min, binary),
        other => other_task(options, other, min, binary),
    }
}

/// Returns the task that `canon` requests for a game, or what is wrong with `options`.
fn game_task<'a>(options: &Options<'_, 'a>, min: bool, binary: bool) -> Result<Task, Mistake<'a>>
    requires format { GivesFormat options.now Pg }
    requires min { GivesFlag (text_of name.Min options.now) min }
    requires binary { GivesFlag (text_of name.Binary options.now) binary }
    ensures asked { IfOk result (AsksFor sub.Canon options.now) }
    ensures mistaken { IfErr result (IsMistake sub.Canon options.now) }
{
    if binary {
        return Err(Mistake::OnlyWith(OptionName::Binary, Format::Aiger));
    }
    let from = identifier_in(options)?;
    if min {
        return Ok(Task::of(Command::OneText(OneText::CanonLeast { from })));
    }
    Ok(Task::of(Command::OneText(match from {
        None => OneText::Canon,
        Some(from) => OneText::CanonPart { from },
    })))
}

/// Returns the task that `canon` requests for a text of `format`, automata or a circuit, or what is wrong with
/// `options`.
fn other_task<'a>(
    options: &Options<'_, 'a>,
    format: Format,
    min: bool,
    binary: bool,
) -> Result<Task, Mistake<'a>>
    requires format { GivesFormat options.now format }
    requires no_game { format ≢ Pg }
    requires min { GivesFlag (text_of name.Min options.now) min }
    requires binary { GivesFlag (text_of name.Binary options.now) binary }
    ensures asked { IfOk result (AsksFor sub.Canon options.now) }
    ensures mistaken { IfErr result (IsMistake sub.Canon options.now) }
{
    if options.from.is_some() {
        return Err(Mistake::OnlyWith(OptionName::From, Format::Pg));
    }
    if min {
        return Err(Mistake::OnlyWith(OptionName::Min, Format::Pg));
    }
    match format {
        Format::Aiger => Ok(Task::of(Command::OneText(OneText::CanonCircuit { binary }))),
        _ if binary => Err(Mistake::OnlyWith(OptionName::Binary, Format::Aiger)),
        _ => Ok(Task::of(Command::Stream(Stream::Canon))),
    }
}
