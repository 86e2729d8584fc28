//! The task that `show` requests.
ghost use Rattle.std.specs.Prelude.{IfErr, IfOk};
ghost use Rattle.omega_cli_command.specs.Mistakes.{IsMistake};
ghost use Rattle.omega_cli_command.specs.Task.{AsksFor};
ghost use Rattle.omega_cli_command.specs.declared.subcommand.Subcommand.TheVariants as sub;

use crate::mistake::Mistake;
use crate::one_text::OneText;
use crate::options::{OptionName, Options};
use crate::task::Task;
use crate::tasks::formats::formatted_task;
use crate::values::is_set;

/// Returns the task that `show` requests with `options`, or what is wrong with them.
pub(crate) fn show_task<'a>(options: &Options<'_, 'a>) -> Result<Task, Mistake<'a>>
    ensures asked { IfOk result (AsksFor sub.Show options.now) }
    ensures mistaken { IfErr result (IsMistake sub.Show options.now) }
{
    if is_set(OptionName::Json, options.json)? {
        formatted_task(options, OneText::ShowJson)
    } else {
        formatted_task(options, OneText::Show)
    }
}
