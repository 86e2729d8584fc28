//! The task that `realize` requests.
ghost use Rattle.std.specs.Prelude.{◌≡◌, IfErr, IfOk, OnOk, false, true};
ghost use Rattle.omega_cli_command.specs.Mistakes.{IsMistake};
ghost use Rattle.omega_cli_command.specs.Options.{GivesNoFormula, GivesNoLifting, text_of};
ghost use Rattle.omega_cli_command.specs.Task.{AsksFor};
ghost use Rattle.omega_cli_command.specs.Values.{GivesFlag};
ghost use Rattle.omega_cli_command.specs.declared.options.OptionName.TheVariants as name;
ghost use Rattle.omega_cli_command.specs.declared.subcommand.Subcommand.TheVariants as sub;

use crate::command::Command;
use crate::mistake::Mistake;
use crate::one_text::OneText;
use crate::options::{OptionName, Options};
use crate::task::Task;
use crate::tasks::synthesis::synthesis_task;
use crate::values::{budget_in, is_set};
use std::alloc::Global;

/// Returns the task that `realize` requests with `options`, or what is wrong with them.
pub(crate) fn realize_task<'a>(
    alloc: Global,
    options: &Options<'_, 'a>,
) -> Result<Task, Mistake<'a>>
    ensures asked { IfOk result (AsksFor sub.Realize options.now) }
    ensures mistaken { IfErr result (IsMistake sub.Realize options.now) }
{
    if options.first_formula().is_some() {
        return synthesis_task(alloc, options);
    }
    if options.outs.is_some() || options.ins.is_some() {
        return Err(Mistake::Missing(OptionName::Formula));
    }
    automaton_task(options)
}

/// Returns the task that `realize` requests of the automaton of the input, or what is wrong with `options`.
fn automaton_task<'a>(options: &Options<'_, 'a>) -> Result<Task, Mistake<'a>>
    requires { GivesNoFormula options.now }
    ensures asked { IfOk result (AsksFor sub.Realize options.now) }
    ensures mistaken { IfErr result (IsMistake sub.Realize options.now) }
{
    let controller = is_set(OptionName::Controller, options.controller)?;
    let as_game = is_set(OptionName::AsGame, options.as_game)?;
    let budget = budget_in(options)?;
    let progress = is_set(OptionName::Progress, options.progress)?;
    let lift = is_set(OptionName::Lift, options.lift)?;
    let aiger = is_set(OptionName::Aiger, options.aiger)?;
    let binary = is_set(OptionName::Binary, options.binary)?;
    if aiger {
        demand_circuit(options, controller, as_game, lift, progress)?;
        return Ok(Task::of(Command::OneText(OneText::RealizeCircuit { binary })));
    }
    if binary {
        return Err(Mistake::Missing(OptionName::Aiger));
    }
    if lift {
        if as_game {
            return Err(Mistake::Conflict(OptionName::Lift, OptionName::AsGame));
        }
        let asked = OneText::RealizeByLifting { controller };
        return Ok(Task {
            budget,
            progress,
            ..Task::of(Command::OneText(asked))
        });
    }
    if options.budget.is_some() || progress {
        return Err(Mistake::Missing(OptionName::Lift));
    }
    if !as_game {
        let asked = OneText::Realize { controller };
        return Ok(Task::of(Command::OneText(asked)));
    }
    if controller {
        return Err(Mistake::Conflict(OptionName::Controller, OptionName::AsGame));
    }
    Ok(Task::of(Command::OneText(OneText::RealizabilityGame)))
}

/// Refuses options that do not go with `--aiger`.
fn demand_circuit<'a>(
    options: &Options<'_, 'a>,
    controller: bool,
    as_game: bool,
    lift: bool,
    progress: bool,
) -> Result<(), Mistake<'a>>
    requires aiger { GivesFlag (text_of name.Aiger options.now) true }
    requires controller { GivesFlag (text_of name.Controller options.now) controller }
    requires as_game { GivesFlag (text_of name.AsGame options.now) as_game }
    requires lift { GivesFlag (text_of name.Lift options.now) lift }
    requires progress { GivesFlag (text_of name.Progress options.now) progress }
    ensures controller { OnOk result (controller ≡ false) }
    ensures as_game { OnOk result (as_game ≡ false) }
    ensures lift { OnOk result (lift ≡ false) }
    ensures unlifted { OnOk result (GivesNoLifting options.now) }
    ensures mistaken { IfErr result (IsMistake sub.Realize options.now) }
{
    if controller {
        return Err(Mistake::Conflict(OptionName::Aiger, OptionName::Controller));
    }
    if as_game {
        return Err(Mistake::Conflict(OptionName::Aiger, OptionName::AsGame));
    }
    if lift {
        return Err(Mistake::Conflict(OptionName::Aiger, OptionName::Lift));
    }
    if options.budget.is_some() {
        return Err(Mistake::Conflict(OptionName::Aiger, OptionName::Budget));
    }
    if progress {
        return Err(Mistake::Conflict(OptionName::Aiger, OptionName::Progress));
    }
    Ok(())
}
