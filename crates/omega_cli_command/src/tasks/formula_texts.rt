//! The texts of formulas that options give.
ghost use Rattle.std.specs.Prelude.{◌≡◌, IfErr, IfOk, map};
ghost use Rattle.omega_cli_command.specs.Options.{formulas_of};
ghost use Rattle.omega_cli_command.specs.declared.mistake.Mistake.TheVariants as mistake;

use crate::mistake::Mistake;
use crate::options::Options;
use omega_text::ByteString;
use std::alloc::{AllocError, Global};

/// Returns a copy of the texts of the formulas.
pub(crate) fn formulas_in<'a>(
    alloc: Global,
    options: &Options<'_, 'a>,
) -> Result<Vec<ByteString>, Mistake<'a>>
    ensures formulas { IfOk result (λ formulas. formulas.items ≡ formulas_of options.now) }
    ensures memory { IfErr result (λ found. found ≡ mistake.Memory) }
{
    match options.formulas {
        Some(texts) => strings_of(alloc, texts),
        None => Ok(Vec::new(alloc)),
    }
}

/// Returns a copy of the texts.
fn strings_of<'a>(alloc: Global, texts: &[&str]) -> Result<Vec<ByteString>, Mistake<'a>>
    ensures strings { IfOk result
        (λ strings. strings.items ≡ map (λ text. text.now) texts.now) }
    ensures memory { IfErr result (λ found. found ≡ mistake.Memory) }
{
    match copy_of(alloc, texts) {
        Ok(strings) => Ok(strings),
        Err(_) => Err(Mistake::Memory),
    }
}

/// Returns a copy of the texts, in one pass.
fn copy_of(alloc: Global, texts: &[&str]) -> Result<Vec<ByteString>, AllocError>
    ensures { IfOk result (λ strings. strings.items ≡ map (λ text. text.now) texts.now) }
{
    let mut strings = Vec::with_capacity(alloc, texts.len())?;
    for text in texts {
        strings.push(ByteString::from_slice(alloc, text.as_bytes())?)?;
    }
    Ok(strings)
}
