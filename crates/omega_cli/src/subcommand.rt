ghost use Rattle.std.specs.Prelude.{◌≡◌, IfOk, map};
ghost use Rattle.clap.specs.Words.{shape_of};
ghost use Rattle.omega_cli.specs.Program.{with_options};
ghost use Rattle.omega_cli.specs.private.building.Building.{rule_for};

use crate::options::OptionHelp;
use clap::Command;
use std::alloc::{AllocError, Global};

/// Returns the subcommand of this name. Help has the line `about`, and long help has `details` after the options.
pub fn subcommand<'a>(
    alloc: Global,
    name: &'a str,
    about: &'a str,
    details: &'a str,
    options: &[OptionHelp],
) -> Result<Command<'a>, AllocError>
    ensures { IfOk result
        (λ command. shape_of command ≡ with_options name.now (map rule_for options.now)) }
{
    let mut command = Command::new(alloc, name)
        .about(about)
        .after_long_help(details);
    for option in options {
        command = command.arg(option.arg(alloc))?;
    }
    Ok(command)
}
