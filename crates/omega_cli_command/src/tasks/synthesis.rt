//! The task that `realize` requests of a formula of the command line.
ghost use Rattle.std.specs.Prelude.{◌≡◌, ◌≢◌, IfErr, IfOk, None, OnOk};
ghost use Rattle.omega_cli_command.specs.Mistakes.{IsMistake};
ghost use Rattle.omega_cli_command.specs.Options.{GivesWritten, text_of};
ghost use Rattle.omega_cli_command.specs.Partition.{GivesSynthesis};
ghost use Rattle.omega_cli_command.specs.Task.{AsksFor};
ghost use Rattle.omega_cli_command.specs.declared.options.OptionName.TheVariants as name;
ghost use Rattle.omega_cli_command.specs.declared.subcommand.Subcommand.TheVariants as sub;
ghost use Rattle.omega_cli_command.specs.private.Realize.{synthesis_asked};

use crate::command::Command;
use crate::mistake::Mistake;
use crate::options::{OptionName, Options};
use crate::partition::Partition;
use crate::synthesis::Synthesis;
use crate::task::Task;
use crate::values::is_set;
use std::alloc::Global;

/// Returns the task that `realize` requests with `options` that give a formula, or what is wrong with them.
pub(crate) fn synthesis_task<'a>(
    alloc: Global,
    options: &Options<'_, 'a>,
) -> Result<Task, Mistake<'a>>
    requires { text_of name.Formula options.now ≢ None }
    ensures asked { IfOk result (AsksFor sub.Realize options.now) }
    ensures mistaken { IfErr result (IsMistake sub.Realize options.now) }
{
    let controller = is_set(OptionName::Controller, options.controller)?;
    let as_game = is_set(OptionName::AsGame, options.as_game)?;
    let progress = is_set(OptionName::Progress, options.progress)?;
    let lift = is_set(OptionName::Lift, options.lift)?;
    let aiger = is_set(OptionName::Aiger, options.aiger)?;
    let binary = is_set(OptionName::Binary, options.binary)?;
    if options.file.is_some() {
        return Err(Mistake::Conflict(OptionName::Formula, OptionName::File));
    }
    if lift {
        return Err(Mistake::Conflict(OptionName::Formula, OptionName::Lift));
    }
    if options.budget.is_some() {
        return Err(Mistake::Conflict(OptionName::Formula, OptionName::Budget));
    }
    if progress {
        return Err(Mistake::Conflict(OptionName::Formula, OptionName::Progress));
    }
    demand_one_form(options, controller, as_game, aiger, binary)?;
    if options.outs.is_none() && options.ins.is_none() {
        return Err(Mistake::Missing(OptionName::Outs));
    }
    let partition = Partition::given(alloc, options)?;
    let asked = synthesis_asked(controller, as_game, aiger, binary);
    Ok(Task::of(Command::Synthesis(asked, partition)))
}

/// Refuses flags by which `realize` would write two things, or in binary what is no circuit.
fn demand_one_form<'a>(
    options: &Options<'_, 'a>,
    controller: bool,
    as_game: bool,
    aiger: bool,
    binary: bool,
) -> Result<(), Mistake<'a>>
    requires { GivesWritten options.now controller as_game aiger binary }
    ensures one { OnOk result
        (GivesSynthesis options.now (synthesis_asked controller as_game aiger binary)) }
    ensures mistaken { IfErr result (IsMistake sub.Realize options.now) }
{
    if controller && as_game {
        return Err(Mistake::Conflict(OptionName::Controller, OptionName::AsGame));
    }
    if aiger && controller {
        return Err(Mistake::Conflict(OptionName::Aiger, OptionName::Controller));
    }
    if aiger && as_game {
        return Err(Mistake::Conflict(OptionName::Aiger, OptionName::AsGame));
    }
    if binary && !aiger {
        return Err(Mistake::Missing(OptionName::Aiger));
    }
    Ok(())
}

/// Returns what is asked of a formula by these flags.
fn synthesis_asked(controller: bool, as_game: bool, aiger: bool, binary: bool) -> Synthesis
    ensures { result ≡ synthesis_asked controller as_game aiger binary }
{
    if as_game {
        Synthesis::Game
    } else if controller {
        Synthesis::Controller
    } else if aiger {
        Synthesis::Circuit { binary }
    } else {
        Synthesis::Decide
    }
}
