//! The tasks that the subcommands request.
ghost use Rattle.std.specs.Prelude.{IfErr, IfOk, None};
ghost use Rattle.omega_cli_command.specs.Implied.{ImpliesFormat};
ghost use Rattle.omega_cli_command.specs.Mistakes.{IsMistake};
ghost use Rattle.omega_cli_command.specs.Task.{AsksFor};

mod canon;
mod check;
mod draw;
mod empty;
mod formats;
mod formula_judge;
mod formula_texts;
mod ltl;
mod realize;
mod satisfies;
mod show;
mod solve;
mod streams;
mod synthesis;
mod transform;
mod two_automata;
mod verify;

use crate::command::Command;
use crate::mistake::Mistake;
use crate::one_text::OneText;
use crate::options::Options;
use crate::subcommand::Subcommand;
use crate::task::Task;
use canon::canon_task;
use check::check_task;
use draw::draw_task;
use empty::empty_task;
use ltl::ltl_task;
use realize::realize_task;
use satisfies::satisfies_task;
use show::show_task;
use solve::solve_task;
use std::alloc::Global;
use transform::{complement_task, trim_task};
use two_automata::{accepts_task, contained_task, equal_task, join_task, meet_task};
use verify::verify_task;

/// Returns the task that `subcommand` requests with `options`, or what is wrong with them.
pub(crate) fn task_for<'a>(
    alloc: Global,
    subcommand: Subcommand,
    options: &Options<'_, 'a>,
) -> Result<Task, Mistake<'a>>
    requires { ImpliesFormat subcommand options.now None }
    ensures asked { IfOk result (AsksFor subcommand options.now) }
    ensures mistaken { IfErr result (IsMistake subcommand options.now) }
{
    match subcommand {
        Subcommand::Show => show_task(options),
        Subcommand::Check => check_task(options),
        Subcommand::Canon => canon_task(options),
        Subcommand::Solve => solve_task(options),
        Subcommand::Verify => verify_task(alloc, options),
        Subcommand::Empty => empty_task(options),
        Subcommand::Game => Ok(Task::of(Command::OneText(OneText::Game))),
        Subcommand::Automaton => Ok(Task::of(Command::OneText(OneText::CircuitAutomaton))),
        Subcommand::Accepts => accepts_task(alloc, options),
        Subcommand::Contained => contained_task(alloc, options),
        Subcommand::Equal => equal_task(alloc, options),
        Subcommand::Satisfies => satisfies_task(alloc, options),
        Subcommand::Meet => meet_task(alloc, options),
        Subcommand::Join => join_task(alloc, options),
        Subcommand::Complement => complement_task(options),
        Subcommand::Trim => trim_task(options),
        Subcommand::Ltl => ltl_task(options),
        Subcommand::Realize => realize_task(alloc, options),
        Subcommand::Draw => draw_task(alloc, options),
    }
}
