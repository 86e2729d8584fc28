//! The task that `satisfies` requests.
ghost use Rattle.std.specs.Prelude.{IfErr, IfOk};
ghost use Rattle.omega_cli_command.specs.Mistakes.{IsMistake};
ghost use Rattle.omega_cli_command.specs.Task.{AsksFor};
ghost use Rattle.omega_cli_command.specs.declared.subcommand.Subcommand.TheVariants as sub;

use crate::command::Command;
use crate::formulas::Formulas;
use crate::mistake::Mistake;
use crate::options::{OptionName, Options};
use crate::subcommand::Subcommand;
use crate::task::Task;
use crate::tasks::formula_texts::formulas_in;
use crate::tasks::streams::count_in;
use crate::values::is_set;
use std::alloc::Global;

/// Returns the task that `satisfies` requests with `options`, or what is wrong with them.
pub(crate) fn satisfies_task<'a>(
    alloc: Global,
    options: &Options<'_, 'a>,
) -> Result<Task, Mistake<'a>>
    ensures asked { IfOk result (AsksFor sub.Satisfies options.now) }
    ensures mistaken { IfErr result (IsMistake sub.Satisfies options.now) }
{
    let explain = is_set(OptionName::Explain, options.explain)?;
    let count = count_in(Subcommand::Satisfies, options)?;
    if options.first_formula().is_none() {
        return Err(Mistake::Missing(OptionName::Formula));
    }
    if options.word_text.is_some() && options.file.is_some() {
        return Err(Mistake::Conflict(OptionName::WordText, OptionName::File));
    }
    if options.word_text.is_some() && count.is_some() {
        return Err(Mistake::Conflict(OptionName::WordText, OptionName::Stream));
    }
    let formulas = formulas_in(alloc, options)?;
    Ok(Task::of(Command::Formulas(
        match count {
            Some(at_least) => Formulas::SatisfiesStream { explain, at_least },
            None if options.word_text.is_some() => Formulas::SatisfiesWord { explain },
            None => Formulas::Satisfies { explain },
        },
        formulas,
    )))
}
