ghost use Rattle.std.specs.Prelude.{◌≡◌, IfErr, IfOk, false, true, option_map};
ghost use Rattle.omega_cli_command.specs.Options.{text_of};
ghost use Rattle.omega_cli_command.specs.Source.{GivesOperand, GivesSource, GivesText, NamesFile};
ghost use Rattle.omega_cli_command.specs.declared.mistake.Mistake.TheVariants as mistake;
ghost use Rattle.omega_cli_command.specs.declared.options.OptionName.TheVariants as name;

use crate::mistake::Mistake;
use crate::options::Options;
use crate::subcommand::Subcommand;
use std::alloc::Global;

/// The source of an input.
#[derive(Debug, Drop)]
pub enum Source {
    /// Standard input.
    Input,
    /// The file of this name.
    File(String),
    /// The command line, which has this text of a formula or of a word.
    Given(String),
}

/// The operand that names standard input.
const STANDARD_INPUT: &str = "-";

/// Returns the source of the input: the formula of `ltl` or of `realize`, or the word of `satisfies`, if the command
/// line has it, or else the file that the operand names, or standard input.
pub(crate) fn source_in<'a>(
    alloc: Global,
    subcommand: Subcommand,
    options: &Options<'_, 'a>,
) -> Result<Source, Mistake<'a>>
    ensures given { IfOk result (GivesSource subcommand options.now) }
    ensures memory { IfErr result (λ found. found ≡ mistake.Memory) }
{
    match subcommand {
        Subcommand::Ltl | Subcommand::Realize => {
            text_source(alloc, options.first_formula(), options)
        }
        Subcommand::Satisfies => text_source(alloc, options.word_text, options),
        _ => operand_source(alloc, options),
    }
}

/// Returns the command line as the source, if it has the text `given`, or else the source that the operand gives.
fn text_source<'a>(
    alloc: Global,
    given: Option<&'a str>,
    options: &Options<'_, 'a>,
) -> Result<Source, Mistake<'a>>
    ensures given { IfOk result
        (GivesText (option_map (λ text. text.now) given.entry) (text_of name.File options.now)) }
    ensures memory { IfErr result (λ found. found ≡ mistake.Memory) }
{
    let Some(given) = given else {
        return operand_source(alloc, options);
    };
    match String::from_str(alloc, given) {
        Ok(text) => Ok(Source::Given(text)),
        Err(_) => Err(Mistake::Memory),
    }
}

/// Returns the source that the operand gives: the file that it names, or standard input.
fn operand_source<'a>(alloc: Global, options: &Options<'_, 'a>) -> Result<Source, Mistake<'a>>
    ensures given { IfOk result (GivesOperand (text_of name.File options.now)) }
    ensures memory { IfErr result (λ found. found ≡ mistake.Memory) }
{
    let Some(name) = options.file else {
        return Ok(Source::Input);
    };
    if name == STANDARD_INPUT {
        return Ok(Source::Input);
    }
    match String::from_str(alloc, name) {
        Ok(name) => Ok(Source::File(name)),
        Err(_) => Err(Mistake::Memory),
    }
}

/// Whether the operand names a file.
pub(crate) fn names_file(options: &Options<'_, '_>) -> bool
    ensures named { result ≡ true → NamesFile (text_of name.File options.now) }
    ensures unnamed { result ≡ false → NamesFile (text_of name.File options.now) → ⊥ }
{
    match options.file {
        Some(name) => name != STANDARD_INPUT,
        None => false,
    }
}
