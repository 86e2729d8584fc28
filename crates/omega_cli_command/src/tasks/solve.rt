//! The task that `solve` requests.
ghost use Rattle.std.specs.Prelude.{IfErr, IfOk};
ghost use Rattle.omega_cli_command.specs.Mistakes.{IsMistake};
ghost use Rattle.omega_cli_command.specs.Task.{AsksFor};
ghost use Rattle.omega_cli_command.specs.declared.subcommand.Subcommand.TheVariants as sub;

use crate::command::Command;
use crate::mistake::Mistake;
use crate::one_text::OneText;
use crate::options::{OptionName, Options};
use crate::task::Task;
use crate::values::{budget_in, effort_in, identifier_in, is_set, player_in, searcher_in};

/// Returns the task that `solve` requests with `options`, or what is wrong with them.
pub(crate) fn solve_task<'a>(options: &Options<'_, 'a>) -> Result<Task, Mistake<'a>>
    ensures asked { IfOk result (AsksFor sub.Solve options.now) }
    ensures mistaken { IfErr result (IsMistake sub.Solve options.now) }
{
    let player = player_in(options)?;
    let from = identifier_in(options)?;
    let budget = budget_in(options)?;
    let progress = is_set(OptionName::Progress, options.progress)?;
    let search = is_set(OptionName::Search, options.search)?;
    let by = searcher_in(options)?;
    let effort = effort_in(options)?;
    let asked = if search {
        if player.is_some() {
            return Err(Mistake::Conflict(OptionName::Search, OptionName::Player));
        }
        OneText::Search { from, by, effort }
    } else {
        if options.by.is_some() || options.effort.is_some() {
            return Err(Mistake::Missing(OptionName::Search));
        }
        OneText::Solve { player, from }
    };
    Ok(Task {
        budget,
        progress,
        ..Task::of(Command::OneText(asked))
    })
}
