//! The format that options imply if it is not given.
ghost use Rattle.std.specs.Prelude.{◌≡◌, None, false, option_map, true};
ghost use Rattle.omega_cli_command.specs.Implied.{ImpliesFormat, Means, SpeaksOf};
ghost use Rattle.omega_cli_command.specs.Values.{GivesFlag, format_name};
ghost use Rattle.omega_cli_command.specs.declared.format.Format.TheVariants.{Aiger, Hoa, Pg};
ghost use Rattle.omega_cli_command.specs.declared.subcommand.Subcommand.TheVariants as sub;
ghost use Rattle.omega_cli_command.specs.private.Implied.{DrawsNothingOfGame};

use crate::format::Format;
use crate::options::Options;
use crate::subcommand::Subcommand;

/// Returns what `options` mean with `subcommand`: the same as with the format that they imply.
pub(crate) fn meant_options<'m, 'a>(
    subcommand: Subcommand,
    options: &Options<'m, 'a>,
) -> Options<'m, 'a>
    ensures means { Means subcommand options.now result }
    ensures settled { ImpliesFormat subcommand result None }
{
    match implied_format(subcommand, options) {
        Some(format) => Options {
            format: Some(name_of(format)),
            ..*options
        },
        None => *options,
    }
}

/// Returns the name of a format on a command line.
fn name_of<'a>(format: Format) -> &'a str
    ensures { result.now ≡ format_name format }
{
    match format {
        Format::Pg => "pg",
        Format::Hoa => "hoa",
        Format::Aiger => "aiger",
    }
}

/// Returns the format that `options` imply: that of an option that goes with one format alone. Of two formats games
/// come before automata, and automata before circuits.
fn implied_format(subcommand: Subcommand, options: &Options<'_, '_>) -> Option<Format>
    ensures { ImpliesFormat subcommand options.now result }
{
    if options.format.is_some() {
        None
    } else if speaks_of_games(subcommand, options) {
        Some(Format::Pg)
    } else if speaks_of_automata(subcommand, options) {
        Some(Format::Hoa)
    } else if speaks_of_circuits(subcommand, options) {
        Some(Format::Aiger)
    } else {
        None
    }
}

/// Whether an option is given that goes with games alone.
fn speaks_of_games(subcommand: Subcommand, options: &Options<'_, '_>) -> bool
    ensures given { result ≡ true → SpeaksOf subcommand options.now Pg }
    ensures none { result ≡ false → SpeaksOf subcommand options.now Pg → ⊥ }
{
    match subcommand {
        Subcommand::Show | Subcommand::Check => is_on(options.lenient),
        Subcommand::Canon => is_on(options.lenient) || options.from.is_some() || is_on(options.min),
        Subcommand::Draw => is_on(options.lenient) || draws_of_game(options),
        _ => false,
    }
}

/// Whether an option of `draw` is given that goes with games alone, besides `--lenient`.
fn draws_of_game(options: &Options<'_, '_>) -> bool
    ensures given { result ≡ true → SpeaksOf sub.Draw options.now Pg }
    ensures none { result ≡ false → DrawsNothingOfGame options.now }
{
    if options.solution.is_some() || options.walk.is_some() || is_on(options.legend) {
        return true;
    }
    options.from.is_some() || options.depth.is_some()
}

/// Whether automata alone are meant: a lasso is drawn, or automata are counted.
fn speaks_of_automata(subcommand: Subcommand, options: &Options<'_, '_>) -> bool
    ensures given { result ≡ true → SpeaksOf subcommand options.now Hoa }
    ensures none { result ≡ false → SpeaksOf subcommand options.now Hoa → ⊥ }
{
    match subcommand {
        Subcommand::Draw => is_on(options.lasso),
        Subcommand::Check => options.at_least.is_some(),
        _ => false,
    }
}

/// Whether circuits alone are meant: a canonical text is written in binary.
fn speaks_of_circuits(subcommand: Subcommand, options: &Options<'_, '_>) -> bool
    ensures given { result ≡ true → SpeaksOf subcommand options.now Aiger }
    ensures none { result ≡ false → SpeaksOf subcommand options.now Aiger → ⊥ }
{
    subcommand == Subcommand::Canon && is_on(options.binary)
}

/// Whether a flag with this text, if it is given, is set.
fn is_on(text: Option<&str>) -> bool
    ensures set { result ≡ true → GivesFlag (option_map (λ text. text.now) text.entry) true }
    ensures unset { result ≡ false → GivesFlag (option_map (λ text. text.now) text.entry) true → ⊥ }
{
    match text {
        Some(text) => text == "true",
        None => false,
    }
}
