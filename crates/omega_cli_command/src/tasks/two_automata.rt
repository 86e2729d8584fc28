//! The tasks about two automata, or about an automaton and a word or formulas.
ghost use Rattle.std.specs.Prelude.{IfErr, IfOk};
ghost use Rattle.omega_cli_command.specs.Mistakes.{IsMistake};
ghost use Rattle.omega_cli_command.specs.Task.{AsksFor};
ghost use Rattle.omega_cli_command.specs.declared.subcommand.Subcommand.TheVariants as sub;

use crate::command::Command;
use crate::formulas::Formulas;
use crate::mistake::Mistake;
use crate::options::{OptionName, Options};
use crate::other::Other;
use crate::subcommand::Subcommand;
use crate::task::Task;
use crate::tasks::formula_texts::formulas_in;
use crate::tasks::streams::count_in;
use crate::two_texts::TwoTexts;
use crate::values::{is_set, other_in};
use std::alloc::Global;

/// Returns the task that `meet` requests with `options`, or what is wrong with them.
pub(crate) fn meet_task<'a>(alloc: Global, options: &Options<'_, 'a>) -> Result<Task, Mistake<'a>>
    ensures asked { IfOk result (AsksFor sub.Meet options.now) }
    ensures mistaken { IfErr result (IsMistake sub.Meet options.now) }
{
    let trim = is_set(OptionName::Trim, options.trim)?;
    let name = other_in(options)?;
    Task::with_file(alloc, TwoTexts::Meet { trim }, name)
}

/// Returns the task that `join` requests with `options`, or what is wrong with them.
pub(crate) fn join_task<'a>(alloc: Global, options: &Options<'_, 'a>) -> Result<Task, Mistake<'a>>
    ensures asked { IfOk result (AsksFor sub.Join options.now) }
    ensures mistaken { IfErr result (IsMistake sub.Join options.now) }
{
    let name = other_in(options)?;
    Task::with_file(alloc, TwoTexts::Join, name)
}

/// Returns the task that `accepts` requests with `options`, or what is wrong with them.
pub(crate) fn accepts_task<'a>(
    alloc: Global,
    options: &Options<'_, 'a>,
) -> Result<Task, Mistake<'a>>
    ensures asked { IfOk result (AsksFor sub.Accepts options.now) }
    ensures mistaken { IfErr result (IsMistake sub.Accepts options.now) }
{
    let explain = is_set(OptionName::Explain, options.explain)?;
    let some = is_set(OptionName::ForSome, options.for_some)?;
    let Some(word) = options.word_text else {
        return Err(Mistake::Missing(OptionName::WordText));
    };
    let other = Other::given(alloc, word)?;
    if some {
        Ok(Task::of(Command::TwoTexts(TwoTexts::AcceptsSome { explain }, other)))
    } else {
        Ok(Task::of(Command::TwoTexts(TwoTexts::Accepts { explain }, other)))
    }
}

/// Returns the task that `contained` requests with `options`, or what is wrong with them.
pub(crate) fn contained_task<'a>(
    alloc: Global,
    options: &Options<'_, 'a>,
) -> Result<Task, Mistake<'a>>
    ensures asked { IfOk result (AsksFor sub.Contained options.now) }
    ensures mistaken { IfErr result (IsMistake sub.Contained options.now) }
{
    let explain = is_set(OptionName::Explain, options.explain)?;
    let count = count_in(Subcommand::Contained, options)?;
    let Some(name) = options.within else {
        return Err(Mistake::Missing(OptionName::In));
    };
    match count {
        Some(at_least) => {
            Task::with_file(alloc, TwoTexts::ContainedStream { explain, at_least }, name)
        }
        None => Task::with_file(alloc, TwoTexts::Contained { explain }, name),
    }
}

/// Returns the task that `equal` requests with `options`, or what is wrong with them.
pub(crate) fn equal_task<'a>(alloc: Global, options: &Options<'_, 'a>) -> Result<Task, Mistake<'a>>
    ensures asked { IfOk result (AsksFor sub.Equal options.now) }
    ensures mistaken { IfErr result (IsMistake sub.Equal options.now) }
{
    let explain = is_set(OptionName::Explain, options.explain)?;
    if options.first_formula().is_some() {
        if options.to.is_some() {
            return Err(Mistake::Conflict(OptionName::Formula, OptionName::To));
        }
        let formulas = formulas_in(alloc, options)?;
        return Ok(Task::of(Command::Formulas(Formulas::Equal { explain }, formulas)));
    }
    let Some(name) = options.to else {
        return Err(Mistake::Missing(OptionName::To));
    };
    Task::with_file(alloc, TwoTexts::Equal { explain }, name)
}
