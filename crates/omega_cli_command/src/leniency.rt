//! The option `--lenient`, by which games are read as other tools write them.
ghost use Rattle.std.specs.Prelude.{◌≡◌, IfErr, IfOk, None, OnOk, false, true};
ghost use Rattle.omega_cli_command.specs.Implied.{ImpliesFormat};
ghost use Rattle.omega_cli_command.specs.Leniency.{GivesLeniency, IsForGames};
ghost use Rattle.omega_cli_command.specs.Mistakes.{IsMistake};
ghost use Rattle.omega_cli_command.specs.Subcommands.{HasGames, HasOption};
ghost use Rattle.omega_cli_command.specs.declared.options.OptionName.TheVariants as name;
ghost use Rattle.omega_cli_command.specs.declared.subcommand.Subcommand.TheVariants as sub;

use crate::format::Format;
use crate::mistake::Mistake;
use crate::options::{OptionName, Options};
use crate::subcommand::Subcommand;
use crate::values::{format_in, is_set};

/// Whether games are read leniently: `subcommand` takes `--lenient`, and it is given.
pub fn leniency_in<'a>(
    subcommand: Subcommand,
    options: &Options<'_, 'a>,
) -> Result<bool, Mistake<'a>>
    ensures given { IfOk result (GivesLeniency subcommand options.now) }
    ensures mistaken { IfErr result (IsMistake subcommand options.now) }
{
    if has_games(subcommand) {
        is_set(OptionName::Lenient, options.lenient)
    } else {
        Ok(false)
    }
}

/// Whether `subcommand` reads games, or may read one.
fn has_games(subcommand: Subcommand) -> bool
    ensures games { result ≡ true → HasGames subcommand }
    ensures no_games { result ≡ false → HasGames subcommand → ⊥ }
{
    match subcommand {
        Subcommand::Show | Subcommand::Check | Subcommand::Canon | Subcommand::Draw => true,
        Subcommand::Solve | Subcommand::Verify => true,
        _ => false,
    }
}

/// Refuses `options` that ask for something else than games.
pub fn demand_games<'a>(
    subcommand: Subcommand,
    options: &Options<'_, 'a>,
) -> Result<(), Mistake<'a>>
    requires lenient { GivesLeniency subcommand options.now true }
    requires settled { ImpliesFormat subcommand options.now None }
    ensures games { OnOk result (IsForGames subcommand options.now) }
    ensures mistaken { IfErr result (IsMistake subcommand options.now) }
{
    match subcommand {
        Subcommand::Solve => Ok(()),
        Subcommand::Verify => demand_game(options),
        _ => demand_game_format(subcommand, options),
    }
}

/// Refuses `options` by which `verify` judges what is not of a game.
fn demand_game<'a>(options: &Options<'_, 'a>) -> Result<(), Mistake<'a>>
    requires { GivesLeniency sub.Verify options.now true }
    ensures games { OnOk result (IsForGames sub.Verify options.now) }
    ensures mistaken { IfErr result (IsMistake sub.Verify options.now) }
{
    if options.automaton.is_some() {
        return Err(Mistake::Conflict(OptionName::Automaton, OptionName::Lenient));
    }
    if options.specification.is_some() {
        return Err(Mistake::Conflict(OptionName::Specification, OptionName::Lenient));
    }
    if options.first_formula().is_some() {
        return Err(Mistake::Conflict(OptionName::Formula, OptionName::Lenient));
    }
    Ok(())
}

/// Refuses another format than that of games.
fn demand_game_format<'a>(
    subcommand: Subcommand,
    options: &Options<'_, 'a>,
) -> Result<(), Mistake<'a>>
    requires lenient { GivesLeniency subcommand options.now true }
    requires settled { ImpliesFormat subcommand options.now None }
    requires format { HasOption subcommand name.Format }
    ensures games { OnOk result (IsForGames subcommand options.now) }
    ensures mistaken { IfErr result (IsMistake subcommand options.now) }
{
    match format_in(options)? {
        Format::Pg => Ok(()),
        Format::Hoa | Format::Aiger => Err(Mistake::OnlyWith(OptionName::Lenient, Format::Pg)),
    }
}
