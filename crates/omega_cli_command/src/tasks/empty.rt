//! The task that `empty` requests.
ghost use Rattle.std.specs.Prelude.{◌≡◌, IfErr, IfOk, false, is_some, true};
ghost use Rattle.omega_cli_command.specs.Mistakes.{IsMistake};
ghost use Rattle.omega_cli_command.specs.Options.{GivesNoLifting, text_of};
ghost use Rattle.omega_cli_command.specs.Task.{AsksCommand, AsksFor};
ghost use Rattle.omega_cli_command.specs.Values.{GivesFlag};
ghost use Rattle.omega_cli_command.specs.declared.options.OptionName.TheVariants as name;
ghost use Rattle.omega_cli_command.specs.declared.subcommand.Subcommand.TheVariants as sub;
ghost use Rattle.omega_cli_command.specs.private.Tasks.{GivesCount};

use crate::command::Command;
use crate::mistake::Mistake;
use crate::one_text::OneText;
use crate::options::{OptionName, Options};
use crate::stream::Stream;
use crate::subcommand::Subcommand;
use crate::task::Task;
use crate::tasks::streams::count_in;
use crate::values::{budget_in, is_set};

/// Returns the task that `empty` requests with `options`, or what is wrong with them.
pub(crate) fn empty_task<'a>(options: &Options<'_, 'a>) -> Result<Task, Mistake<'a>>
    ensures asked { IfOk result (AsksFor sub.Empty options.now) }
    ensures mistaken { IfErr result (IsMistake sub.Empty options.now) }
{
    let count = count_in(Subcommand::Empty, options)?;
    let progress = is_set(OptionName::Progress, options.progress)?;
    if count.is_some() && progress {
        return Err(Mistake::Conflict(OptionName::Stream, OptionName::Progress));
    }
    let budget = budget_in(options)?;
    let search = is_set(OptionName::Search, options.search)?;
    if search && options.budget.is_some() {
        return Err(Mistake::Conflict(OptionName::Search, OptionName::Budget));
    }
    if search && progress {
        return Err(Mistake::Conflict(OptionName::Search, OptionName::Progress));
    }
    let command = empty_command(options, count, search)?;
    Ok(Task {
        budget,
        progress,
        ..Task::of(command)
    })
}

/// Returns the command that `empty` requests for one automaton, or for a stream with a least `count` of them, decided
/// by lifting or by a search, or what is wrong with `options`.
fn empty_command<'a>(
    options: &Options<'_, 'a>,
    count: Option<u32>,
    search: bool,
) -> Result<Command, Mistake<'a>>
    requires count { GivesCount options.now count }
    requires search { GivesFlag (text_of name.Search options.now) search }
    requires unobserved { is_some count ≡ true → GivesFlag (text_of name.Progress options.now) false }
    requires unlifted { search ≡ true → GivesNoLifting options.now }
    ensures asked { IfOk result (AsksCommand false sub.Empty options.now) }
    ensures mistaken { IfErr result (IsMistake sub.Empty options.now) }
{
    let word = is_set(OptionName::Word, options.word)?;
    let names = is_set(OptionName::Names, options.names)?;
    let status = is_set(OptionName::Status, options.status)?;
    Ok(match (count, search) {
        (None, false) => Command::OneText(OneText::Empty {
            word,
            names,
            status,
        }),
        (None, true) => Command::OneText(OneText::EmptySearch {
            word,
            names,
            status,
        }),
        (Some(at_least), false) => Command::Stream(Stream::Empty {
            word,
            names,
            status,
            at_least,
        }),
        (Some(at_least), true) => Command::Stream(Stream::EmptySearch {
            word,
            names,
            status,
            at_least,
        }),
    })
}
