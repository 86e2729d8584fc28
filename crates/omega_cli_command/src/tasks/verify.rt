//! The task that `verify` requests.
ghost use Rattle.std.specs.Prelude.{◌≡◌, IfErr, IfOk, None, Some, false};
ghost use Rattle.omega_cli_command.specs.Mistakes.{IsMistake};
ghost use Rattle.omega_cli_command.specs.Options.{GivesNoFormula, text_of};
ghost use Rattle.omega_cli_command.specs.Task.{AsksFor};
ghost use Rattle.omega_cli_command.specs.Values.{GivesFlag};
ghost use Rattle.omega_cli_command.specs.declared.options.OptionName.TheVariants as name;
ghost use Rattle.omega_cli_command.specs.declared.subcommand.Subcommand.TheVariants as sub;
ghost use Rattle.omega_cli_command.specs.private.Verify.{solution_question};

use crate::mistake::Mistake;
use crate::options::{OptionName, Options};
use crate::task::Task;
use crate::tasks::formula_judge::formula_judge_task;
use crate::two_texts::TwoTexts;
use crate::values::{identifier_in, is_set};
use std::alloc::Global;

/// Returns the task that `verify` requests with `options`, or what is wrong with them.
pub(crate) fn verify_task<'a>(alloc: Global, options: &Options<'_, 'a>) -> Result<Task, Mistake<'a>>
    ensures asked { IfOk result (AsksFor sub.Verify options.now) }
    ensures mistaken { IfErr result (IsMistake sub.Verify options.now) }
{
    let explain = is_set(OptionName::Explain, options.explain)?;
    let winners = is_set(OptionName::Winners, options.winners)?;
    let names = is_set(OptionName::Names, options.names)?;
    let counter_strategy = is_set(OptionName::CounterStrategy, options.counter_strategy)?;
    if let Some(formula) = options.first_formula() {
        return formula_judge_task(
            alloc,
            options,
            formula,
            counter_strategy,
            explain,
            winners,
            names,
        );
    }
    if options.outs.is_some() || options.ins.is_some() {
        return Err(Mistake::Missing(OptionName::Formula));
    }
    if let Some(specification) = options.specification {
        return specified_task(
            alloc,
            options,
            specification,
            counter_strategy,
            explain,
            winners,
            names,
        );
    }
    if counter_strategy {
        return Err(Mistake::Missing(OptionName::Specification));
    }
    if let Some(automaton) = options.automaton {
        return lasso_task(alloc, options, automaton, explain, winners, names);
    }
    solution_task(alloc, options, explain, winners, names)
}

/// Returns the task that `verify` requests with `options` that name neither an automaton nor a specification and give
/// no formula, or what is wrong with them.
fn solution_task<'a>(
    alloc: Global,
    options: &Options<'_, 'a>,
    explain: bool,
    winners: bool,
    names: bool,
) -> Result<Task, Mistake<'a>>
    requires no_formula { GivesNoFormula options.now }
    requires unspecified { text_of name.Specification options.now ≡ None }
    requires no_automaton { text_of name.Automaton options.now ≡ None }
    requires no_strategy { GivesFlag (text_of name.CounterStrategy options.now) false }
    requires explain { GivesFlag (text_of name.Explain options.now) explain }
    requires winners { GivesFlag (text_of name.Winners options.now) winners }
    requires names { GivesFlag (text_of name.Names options.now) names }
    ensures asked { IfOk result (AsksFor sub.Verify options.now) }
    ensures mistaken { IfErr result (IsMistake sub.Verify options.now) }
{
    let Some(name) = options.game else {
        return Err(Mistake::Missing(OptionName::Game));
    };
    let from = identifier_in(options)?;
    if names && winners {
        return Err(Mistake::Conflict(OptionName::Winners, OptionName::Names));
    }
    if names && !explain {
        return Err(Mistake::Missing(OptionName::Explain));
    }
    let asked = solution_question(from, explain, winners, names);
    Task::with_file(alloc, asked, name)
}

/// Returns what is asked of a solution. With names of nodes, its choices are judged and a `no` is explained.
fn solution_question(from: Option<u32>, explain: bool, winners: bool, names: bool) -> TwoTexts
    ensures { result ≡ solution_question from explain winners names }
{
    if names {
        TwoTexts::VerifyNamed { from }
    } else if winners {
        TwoTexts::VerifyWinners { from, explain }
    } else {
        TwoTexts::Verify { from, explain }
    }
}

/// Returns the task that `verify` requests with `options` that name an automaton and no specification, or what is wrong
/// with them.
fn lasso_task<'a>(
    alloc: Global,
    options: &Options<'_, 'a>,
    automaton: &'a str,
    explain: bool,
    winners: bool,
    names: bool,
) -> Result<Task, Mistake<'a>>
    requires no_formula { GivesNoFormula options.now }
    requires unspecified { text_of name.Specification options.now ≡ None }
    requires automaton { text_of name.Automaton options.now ≡ Some automaton.now }
    requires no_strategy { GivesFlag (text_of name.CounterStrategy options.now) false }
    requires explain { GivesFlag (text_of name.Explain options.now) explain }
    requires winners { GivesFlag (text_of name.Winners options.now) winners }
    requires names { GivesFlag (text_of name.Names options.now) names }
    ensures asked { IfOk result (AsksFor sub.Verify options.now) }
    ensures mistaken { IfErr result (IsMistake sub.Verify options.now) }
{
    if options.game.is_some() {
        return Err(Mistake::Conflict(OptionName::Automaton, OptionName::Game));
    }
    if options.from.is_some() {
        return Err(Mistake::Conflict(OptionName::Automaton, OptionName::From));
    }
    if winners {
        return Err(Mistake::Conflict(OptionName::Automaton, OptionName::Winners));
    }
    if names {
        return Err(Mistake::Conflict(OptionName::Automaton, OptionName::Names));
    }
    Task::with_file(alloc, TwoTexts::VerifyLasso { explain }, automaton)
}

/// Returns the task that `verify` requests with `options` that name a specification, or what is wrong with them.
fn specified_task<'a>(
    alloc: Global,
    options: &Options<'_, 'a>,
    specification: &'a str,
    counter_strategy: bool,
    explain: bool,
    winners: bool,
    names: bool,
) -> Result<Task, Mistake<'a>>
    requires no_formula { GivesNoFormula options.now }
    requires specification { text_of name.Specification options.now ≡ Some specification.now }
    requires counter_strategy { GivesFlag (text_of name.CounterStrategy options.now) counter_strategy }
    requires explain { GivesFlag (text_of name.Explain options.now) explain }
    requires winners { GivesFlag (text_of name.Winners options.now) winners }
    requires names { GivesFlag (text_of name.Names options.now) names }
    ensures asked { IfOk result (AsksFor sub.Verify options.now) }
    ensures mistaken { IfErr result (IsMistake sub.Verify options.now) }
{
    if options.automaton.is_some() {
        return Err(Mistake::Conflict(OptionName::Specification, OptionName::Automaton));
    }
    if options.game.is_some() {
        return Err(Mistake::Conflict(OptionName::Specification, OptionName::Game));
    }
    if options.from.is_some() {
        return Err(Mistake::Conflict(OptionName::Specification, OptionName::From));
    }
    if winners {
        return Err(Mistake::Conflict(OptionName::Specification, OptionName::Winners));
    }
    if names {
        return Err(Mistake::Conflict(OptionName::Specification, OptionName::Names));
    }
    if counter_strategy {
        let asked = TwoTexts::VerifyCounterStrategy { explain };
        Task::with_file(alloc, asked, specification)
    } else {
        Task::with_file(alloc, TwoTexts::VerifyController { explain }, specification)
    }
}
