//! The task that `ltl` requests.
ghost use Rattle.std.specs.Prelude.{IfErr, IfOk};
ghost use Rattle.omega_cli_command.specs.Mistakes.{IsMistake};
ghost use Rattle.omega_cli_command.specs.Task.{AsksFor};
ghost use Rattle.omega_cli_command.specs.declared.subcommand.Subcommand.TheVariants as sub;

use crate::command::Command;
use crate::mistake::Mistake;
use crate::one_text::OneText;
use crate::options::{OptionName, Options};
use crate::task::Task;
use crate::values::is_set;

/// Returns the task that `ltl` requests with `options`, or what is wrong with them.
pub(crate) fn ltl_task<'a>(options: &Options<'_, 'a>) -> Result<Task, Mistake<'a>>
    ensures asked { IfOk result (AsksFor sub.Ltl options.now) }
    ensures mistaken { IfErr result (IsMistake sub.Ltl options.now) }
{
    let negated = is_set(OptionName::Negated, options.negated)?;
    let deterministic = is_set(OptionName::Deterministic, options.deterministic)?;
    if options.first_formula().is_some() && options.file.is_some() {
        return Err(Mistake::Conflict(OptionName::Formula, OptionName::File));
    }
    let asked = if deterministic {
        OneText::LtlDeterministic { negated }
    } else {
        OneText::Ltl { negated }
    };
    Ok(Task::of(Command::OneText(asked)))
}
