ghost use Rattle.std.specs.Prelude.{◌≡◌, IfErr, IfOk, Some};
ghost use Rattle.omega_cli_command.specs.TwoTexts.{HasOther, NamesOther};
ghost use Rattle.omega_cli_command.specs.declared.mistake.Mistake.TheVariants as mistake;

use crate::mistake::Mistake;
use std::alloc::Global;

/// Where the other of two texts comes from.
#[derive(Debug, Drop)]
pub enum Other {
    /// The file of this name.
    File(String),
    /// The command line, which has this text of a word or of a formula.
    Given(String),
}

impl Other {
    /// Returns the text of the file of this name.
    pub(crate) fn of_file<'a>(alloc: Global, name: &str) -> Result<Other, Mistake<'a>>
        ensures named { IfOk result (NamesOther (Some name.now)) }
        ensures memory { IfErr result (λ found. found ≡ mistake.Memory) }
    {
        match String::from_str(alloc, name) {
            Ok(file) => Ok(Other::File(file)),
            Err(_) => Err(Mistake::Memory),
        }
    }

    /// Returns this text, of a word or of a formula.
    pub(crate) fn given<'a>(alloc: Global, text: &str) -> Result<Other, Mistake<'a>>
        ensures given { IfOk result (HasOther (Some text.now)) }
        ensures memory { IfErr result (λ found. found ≡ mistake.Memory) }
    {
        match String::from_str(alloc, text) {
            Ok(text) => Ok(Other::Given(text)),
            Err(_) => Err(Mistake::Memory),
        }
    }
}
