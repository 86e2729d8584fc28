//! The task that `verify` requests for a formula of the command line.
ghost use Rattle.std.specs.Prelude.{◌≡◌, IfErr, IfOk, Some};
ghost use Rattle.omega_cli_command.specs.Mistakes.{IsMistake};
ghost use Rattle.omega_cli_command.specs.Options.{text_of};
ghost use Rattle.omega_cli_command.specs.Task.{AsksFor};
ghost use Rattle.omega_cli_command.specs.Values.{GivesFlag};
ghost use Rattle.omega_cli_command.specs.declared.options.OptionName.TheVariants as name;
ghost use Rattle.omega_cli_command.specs.declared.subcommand.Subcommand.TheVariants as sub;

use crate::command::Command;
use crate::formula_judge::FormulaJudge;
use crate::mistake::Mistake;
use crate::options::{OptionName, Options};
use crate::other::Other;
use crate::partition::Partition;
use crate::task::Task;
use std::alloc::Global;

/// Returns the task that `verify` requests with `options` that give `formula`, or what is wrong with them.
pub(crate) fn formula_judge_task<'a>(
    alloc: Global,
    options: &Options<'_, 'a>,
    formula: &'a str,
    counter_strategy: bool,
    explain: bool,
    winners: bool,
    names: bool,
) -> Result<Task, Mistake<'a>>
    requires formula { text_of name.Formula options.now ≡ Some formula.now }
    requires counter_strategy { GivesFlag (text_of name.CounterStrategy options.now) counter_strategy }
    requires explain { GivesFlag (text_of name.Explain options.now) explain }
    requires winners { GivesFlag (text_of name.Winners options.now) winners }
    requires names { GivesFlag (text_of name.Names options.now) names }
    ensures asked { IfOk result (AsksFor sub.Verify options.now) }
    ensures mistaken { IfErr result (IsMistake sub.Verify options.now) }
{
    if options.specification.is_some() {
        return Err(Mistake::Conflict(OptionName::Formula, OptionName::Specification));
    }
    if options.automaton.is_some() {
        return Err(Mistake::Conflict(OptionName::Formula, OptionName::Automaton));
    }
    if options.game.is_some() {
        return Err(Mistake::Conflict(OptionName::Formula, OptionName::Game));
    }
    if options.from.is_some() {
        return Err(Mistake::Conflict(OptionName::Formula, OptionName::From));
    }
    if winners {
        return Err(Mistake::Conflict(OptionName::Formula, OptionName::Winners));
    }
    if names {
        return Err(Mistake::Conflict(OptionName::Formula, OptionName::Names));
    }
    if options.outs.is_none() && options.ins.is_none() {
        return Err(Mistake::Missing(OptionName::Outs));
    }
    let partition = Partition::given(alloc, options)?;
    let other = Other::given(alloc, formula)?;
    let asked = if counter_strategy {
        FormulaJudge::CounterStrategy { explain }
    } else {
        FormulaJudge::Controller { explain }
    };
    Ok(Task::of(Command::FormulaJudge(asked, other, partition)))
}
