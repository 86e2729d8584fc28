//! The task that `draw` requests.
ghost use Rattle.std.specs.Prelude.{IfErr, IfOk, None, false};
ghost use Rattle.omega_cli_command.specs.Implied.{ImpliesFormat};
ghost use Rattle.omega_cli_command.specs.Mistakes.{IsMistake};
ghost use Rattle.omega_cli_command.specs.Options.{GivesFormat, GivesPart, text_of};
ghost use Rattle.omega_cli_command.specs.Task.{AsksFor};
ghost use Rattle.omega_cli_command.specs.Values.{GivesFlag};
ghost use Rattle.omega_cli_command.specs.declared.format.Format.TheVariants.{Hoa, Pg};
ghost use Rattle.omega_cli_command.specs.declared.options.OptionName.TheVariants as name;
ghost use Rattle.omega_cli_command.specs.declared.subcommand.Subcommand.TheVariants as sub;

use crate::command::Command;
use crate::format::Format;
use crate::mistake::{Mistake, Reason};
use crate::one_text::OneText;
use crate::options::{OptionName, Options};
use crate::task::Task;
use crate::tasks::formats::{leaves_format, task_by_text};
use crate::two_texts::TwoTexts;
use crate::values::{depth_in, format_in, identifier_in, is_set};
use std::alloc::Global;

/// Returns the task that `draw` requests with `options`, or what is wrong with them.
pub(crate) fn draw_task<'a>(alloc: Global, options: &Options<'_, 'a>) -> Result<Task, Mistake<'a>>
    requires { ImpliesFormat sub.Draw options.now None }
    ensures asked { IfOk result (AsksFor sub.Draw options.now) }
    ensures mistaken { IfErr result (IsMistake sub.Draw options.now) }
{
    let legend = is_set(OptionName::Legend, options.legend)?;
    let lasso = is_set(OptionName::Lasso, options.lasso)?;
    if leaves_format(options) {
        return Ok(task_by_text(OneText::DrawGame));
    }
    match format_in(options)? {
        Format::Pg => game_task(alloc, options, legend, lasso),
        Format::Hoa => automaton_task(options, legend, lasso),
        Format::Aiger => Err(Mistake::Value(OptionName::Format, "aiger", Reason::NotDrawn)),
    }
}

/// Returns the task that `draw` requests for a game, or what is wrong with `options`.
fn game_task<'a>(
    alloc: Global,
    options: &Options<'_, 'a>,
    legend: bool,
    lasso: bool,
) -> Result<Task, Mistake<'a>>
    requires format { GivesFormat options.now Pg }
    requires legend { GivesFlag (text_of name.Legend options.now) legend }
    requires lasso { GivesFlag (text_of name.Lasso options.now) lasso }
    ensures asked { IfOk result (AsksFor sub.Draw options.now) }
    ensures mistaken { IfErr result (IsMistake sub.Draw options.now) }
{
    if lasso {
        return Err(Mistake::OnlyWith(OptionName::Lasso, Format::Hoa));
    }
    let from = identifier_in(options)?;
    let depth = depth_in(options)?;
    if depth.is_some() && from.is_none() {
        return Err(Mistake::Missing(OptionName::From));
    }
    part_task(alloc, options, from, depth, legend)
}

/// Returns the task that `draw` requests for this part of a game, with what is drawn in it, or what is wrong with
/// `options`.
fn part_task<'a>(
    alloc: Global,
    options: &Options<'_, 'a>,
    from: Option<u32>,
    depth: Option<u32>,
    legend: bool,
) -> Result<Task, Mistake<'a>>
    requires format { GivesFormat options.now Pg }
    requires no_lasso { GivesFlag (text_of name.Lasso options.now) false }
    requires part { GivesPart options.now from depth }
    requires legend { GivesFlag (text_of name.Legend options.now) legend }
    ensures asked { IfOk result (AsksFor sub.Draw options.now) }
    ensures mistaken { IfErr result (IsMistake sub.Draw options.now) }
{
    if let Some(solution) = options.solution {
        if options.walk.is_some() {
            return Err(Mistake::Conflict(OptionName::Solution, OptionName::Walk));
        }
        let asked = TwoTexts::DrawSolution {
            from,
            depth,
            legend,
        };
        return Task::with_file(alloc, asked, solution);
    }
    if let Some(walk) = options.walk {
        let asked = TwoTexts::DrawWalk {
            from,
            depth,
            legend,
        };
        return Task::with_file(alloc, asked, walk);
    }
    if legend {
        return Err(Mistake::Missing(OptionName::Solution));
    }
    Ok(Task::of(Command::OneText(match from {
        None => OneText::DrawGame,
        Some(from) => OneText::DrawPart { from, depth },
    })))
}

/// Returns the task that `draw` requests for an automaton, or what is wrong with `options`.
fn automaton_task<'a>(
    options: &Options<'_, 'a>,
    legend: bool,
    lasso: bool,
) -> Result<Task, Mistake<'a>>
    requires format { GivesFormat options.now Hoa }
    requires legend { GivesFlag (text_of name.Legend options.now) legend }
    requires lasso { GivesFlag (text_of name.Lasso options.now) lasso }
    ensures asked { IfOk result (AsksFor sub.Draw options.now) }
    ensures mistaken { IfErr result (IsMistake sub.Draw options.now) }
{
    if options.solution.is_some() {
        return Err(Mistake::OnlyWith(OptionName::Solution, Format::Pg));
    }
    if options.walk.is_some() {
        return Err(Mistake::OnlyWith(OptionName::Walk, Format::Pg));
    }
    if legend {
        return Err(Mistake::OnlyWith(OptionName::Legend, Format::Pg));
    }
    if options.from.is_some() {
        return Err(Mistake::OnlyWith(OptionName::From, Format::Pg));
    }
    if options.depth.is_some() {
        return Err(Mistake::OnlyWith(OptionName::Depth, Format::Pg));
    }
    Ok(Task::of(Command::OneText(if lasso {
        OneText::DrawLasso
    } else {
        OneText::DrawAutomaton
    })))
}
