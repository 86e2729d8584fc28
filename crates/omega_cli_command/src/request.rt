ghost use Rattle.std.specs.Prelude.{IfErr, IfOk, None};
ghost use Rattle.omega_cli_command.specs.Implied.{ImpliesFormat};
ghost use Rattle.omega_cli_command.specs.Mistakes.{IsMistake, IsWrong};
ghost use Rattle.omega_cli_command.specs.Request.{Asks, AsksPlainly, IsRunnable};

use crate::implied::meant_options;
use crate::leniency::{demand_games, leniency_in};
use crate::mistake::Mistake;
use crate::options::{OptionName, Options};
use crate::source::source_in;
use crate::subcommand::Subcommand;
use crate::task::Task;
use crate::tasks::task_for;
use crate::values::is_set;
use std::alloc::Global;

/// What a command line requests.
#[derive(Debug, Drop)]
pub enum Request {
    /// That a task is done.
    Do(Task),
    /// A text of help, or the version, which goes to standard output.
    Help(String),
    /// What is wrong with the command line, which goes to standard error.
    Fault(String),
}

/// Returns what `subcommand` requests with what `options` mean, or what is wrong with them. Options that the subcommand
/// does not take are not looked at.
pub fn request_for<'a>(
    alloc: Global,
    subcommand: Subcommand,
    options: &Options<'_, 'a>,
) -> Result<Request, Mistake<'a>>
    ensures asked { IfOk result (Asks subcommand options.now) }
    ensures runnable { IfOk result IsRunnable }
    ensures mistaken { IfErr result (IsWrong subcommand options.now) }
{
    plain_request(alloc, subcommand, &meant_options(subcommand, options))
}

/// Returns what `subcommand` requests with `options` as they are, or what is wrong with them.
fn plain_request<'a>(
    alloc: Global,
    subcommand: Subcommand,
    options: &Options<'_, 'a>,
) -> Result<Request, Mistake<'a>>
    requires { ImpliesFormat subcommand options.now None }
    ensures asked { IfOk result (AsksPlainly subcommand options.now) }
    ensures runnable { IfOk result IsRunnable }
    ensures mistaken { IfErr result (IsMistake subcommand options.now) }
{
    let verbose = is_set(OptionName::Verbose, options.verbose)?;
    let lenient = leniency_in(subcommand, options)?;
    if lenient {
        demand_games(subcommand, options)?;
    }
    let task = task_for(alloc, subcommand, options)?;
    let source = source_in(alloc, subcommand, options)?;
    Ok(Request::Do(Task {
        source,
        lenient,
        verbose,
        ..task
    }))
}
