//! The tasks that make one automaton of each that they read: those that `complement` and `trim` request.
ghost use Rattle.std.specs.Prelude.{IfErr, IfOk};
ghost use Rattle.omega_cli_command.specs.Mistakes.{IsMistake};
ghost use Rattle.omega_cli_command.specs.Task.{AsksFor};
ghost use Rattle.omega_cli_command.specs.declared.subcommand.Subcommand.TheVariants as sub;

use crate::command::Command;
use crate::mistake::Mistake;
use crate::one_text::OneText;
use crate::options::Options;
use crate::stream::Stream;
use crate::subcommand::Subcommand;
use crate::task::Task;
use crate::tasks::streams::count_in;

/// Returns the task that `complement` requests with `options`, or what is wrong with them.
pub(crate) fn complement_task<'a>(options: &Options<'_, 'a>) -> Result<Task, Mistake<'a>>
    ensures asked { IfOk result (AsksFor sub.Complement options.now) }
    ensures mistaken { IfErr result (IsMistake sub.Complement options.now) }
{
    Ok(Task::of(match count_in(Subcommand::Complement, options)? {
        Some(at_least) => Command::Stream(Stream::Complement { at_least }),
        None => Command::OneText(OneText::Complement),
    }))
}

/// Returns the task that `trim` requests with `options`, or what is wrong with them.
pub(crate) fn trim_task<'a>(options: &Options<'_, 'a>) -> Result<Task, Mistake<'a>>
    ensures asked { IfOk result (AsksFor sub.Trim options.now) }
    ensures mistaken { IfErr result (IsMistake sub.Trim options.now) }
{
    Ok(Task::of(match count_in(Subcommand::Trim, options)? {
        Some(at_least) => Command::Stream(Stream::Trim { at_least }),
        None => Command::OneText(OneText::Trim),
    }))
}
