//! The task that `check` requests.
ghost use Rattle.std.specs.Prelude.{◌≢◌, IfErr, IfOk, None};
ghost use Rattle.omega_cli_command.specs.Implied.{ImpliesFormat};
ghost use Rattle.omega_cli_command.specs.Mistakes.{IsMistake};
ghost use Rattle.omega_cli_command.specs.Options.{text_of};
ghost use Rattle.omega_cli_command.specs.Task.{AsksFor};
ghost use Rattle.omega_cli_command.specs.declared.options.OptionName.TheVariants as name;
ghost use Rattle.omega_cli_command.specs.declared.subcommand.Subcommand.TheVariants as sub;

use crate::command::Command;
use crate::format::Format;
use crate::mistake::Mistake;
use crate::one_text::OneText;
use crate::options::{OptionName, Options};
use crate::stream::Stream;
use crate::task::Task;
use crate::tasks::formats::formatted_task;
use crate::values::{at_least_in, format_in};

/// Returns the task that `check` requests with `options`, or what is wrong with them.
pub(crate) fn check_task<'a>(options: &Options<'_, 'a>) -> Result<Task, Mistake<'a>>
    requires { ImpliesFormat sub.Check options.now None }
    ensures asked { IfOk result (AsksFor sub.Check options.now) }
    ensures mistaken { IfErr result (IsMistake sub.Check options.now) }
{
    if options.at_least.is_some() {
        counted_task(options)
    } else {
        formatted_task(options, OneText::Check)
    }
}

/// Returns the task that `check` requests for a stream that is to have a number of automata at least, or what is wrong
/// with `options`.
fn counted_task<'a>(options: &Options<'_, 'a>) -> Result<Task, Mistake<'a>>
    requires settled { ImpliesFormat sub.Check options.now None }
    requires given { text_of name.AtLeast options.now ≢ None }
    ensures asked { IfOk result (AsksFor sub.Check options.now) }
    ensures mistaken { IfErr result (IsMistake sub.Check options.now) }
{
    let at_least = at_least_in(options)?;
    match format_in(options)? {
        Format::Hoa => Ok(Task::of(Command::Stream(Stream::Check { at_least }))),
        Format::Pg | Format::Aiger => Err(Mistake::OnlyWith(OptionName::AtLeast, Format::Hoa)),
    }
}
