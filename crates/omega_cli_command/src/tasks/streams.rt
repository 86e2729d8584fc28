//! Whether a stream is read, and how many automata it is to have at least.
ghost use Rattle.std.specs.Prelude.{IfErr, IfOk};
ghost use Rattle.omega_cli_command.specs.Mistakes.{IsMistake};
ghost use Rattle.omega_cli_command.specs.Subcommands.{HasOption};
ghost use Rattle.omega_cli_command.specs.declared.options.OptionName.TheVariants as name;
ghost use Rattle.omega_cli_command.specs.private.Tasks.{GivesCount};

use crate::mistake::Mistake;
use crate::options::{OptionName, Options};
use crate::subcommand::Subcommand;
use crate::values::{at_least_in, is_set};

/// Returns how many automata a stream is to have at least if the `options` of a subcommand that takes streams ask for
/// one, and [None] if they ask for one text, or what is wrong with them.
pub(crate) fn count_in<'a>(
    _subcommand: Subcommand,
    options: &Options<'_, 'a>,
) -> Result<Option<u32>, Mistake<'a>>
    requires stream { HasOption _subcommand name.Stream }
    requires count { HasOption _subcommand name.AtLeast }
    ensures given { IfOk result (GivesCount options.now) }
    ensures mistaken { IfErr result (IsMistake _subcommand options.now) }
{
    let stream = is_set(OptionName::Stream, options.stream)?;
    let at_least = at_least_in(options)?;
    if stream {
        Ok(Some(at_least))
    } else if options.at_least.is_some() {
        Err(Mistake::Missing(OptionName::Stream))
    } else {
        Ok(None)
    }
}
