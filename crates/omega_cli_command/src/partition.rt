//! Which propositions of a formula are whose.
ghost use Rattle.std.specs.Prelude.{◌≡◌, ◌==◌, IfErr, IfOk, map, option_map};
ghost use Rattle.std.specs.List.{slice_split};
ghost use Rattle.omega_cli_command.specs.Options.{text_of};
ghost use Rattle.omega_cli_command.specs.Partition.{bare_name, comma, listed_names};
ghost use Rattle.omega_cli_command.specs.declared.mistake.Mistake.TheVariants as mistake;
ghost use Rattle.omega_cli_command.specs.declared.options.OptionName.TheVariants as name;

use crate::mistake::Mistake;
use crate::options::Options;
use omega_text::ByteString;
use std::alloc::{AllocError, Global};

/// The names of a formula's propositions, parted between the system and the environment. One of the two lists may be
/// left out.
#[derive(Debug, Drop)]
pub struct Partition {
    /// The names of the propositions that the system controls.
    pub outs: Option<Vec<ByteString>>,
    /// The names of those that the environment controls.
    pub ins: Option<Vec<ByteString>>,
}

impl Partition {
    /// Returns the names that `--outs` and `--ins` list.
    pub(crate) fn given<'a>(
        alloc: Global,
        options: &Options<'_, 'a>,
    ) -> Result<Partition, Mistake<'a>>
        ensures outs { IfOk result (λ given. option_map (λ names. names.items) given.outs
            ≡ option_map listed_names (text_of name.Outs options.now)) }
        ensures ins { IfOk result (λ given. option_map (λ names. names.items) given.ins
            ≡ option_map listed_names (text_of name.Ins options.now)) }
        ensures memory { IfErr result (λ found. found ≡ mistake.Memory) }
    {
        let outs = names_given(alloc, options.outs)?;
        let ins = names_given(alloc, options.ins)?;
        Ok(Partition { outs, ins })
    }
}

/// Returns the names that an option with this text lists, if it is given.
fn names_given<'a>(
    alloc: Global,
    list: Option<&'a str>,
) -> Result<Option<Vec<ByteString>>, Mistake<'a>>
    ensures names { IfOk result (λ given. option_map (λ names. names.items) given
        ≡ option_map listed_names (option_map (λ text. text.now) list.entry)) }
    ensures memory { IfErr result (λ found. found ≡ mistake.Memory) }
{
    let Some(list) = list else {
        return Ok(None);
    };
    match listed_names(alloc, list) {
        Ok(names) => Ok(Some(names)),
        Err(_) => Err(Mistake::Memory),
    }
}

/// Returns the names that a text lists.
fn listed_names(alloc: Global, list: &str) -> Result<Vec<ByteString>, AllocError>
    ensures { IfOk result (λ names. names.items ≡ listed_names list.now) }
{
    if bare_name(list).is_empty() {
        return Ok(Vec::new(alloc));
    }
    let parts = parts_of(alloc, list)?;
    bare_names(alloc, parts.as_slice())
}

/// Returns the parts of a text between its commas.
fn parts_of(alloc: Global, list: &str) -> Result<Vec<&str>, AllocError>
    ensures { IfOk result
        (λ parts. map (λ part. part.now) parts.items ≡ slice_split (λ byte. byte == comma) list.now) }
{
    list.split(',').collect(alloc)
}

/// Returns these parts without the white space around each.
fn bare_names(alloc: Global, parts: &[&str]) -> Result<Vec<ByteString>, AllocError>
    ensures { IfOk result (λ names. names.items ≡ map bare_name (map (λ part. part.now) parts.now)) }
{
    let mut names = Vec::with_capacity(alloc, parts.len())?;
    for part in parts {
        let name = bare_name(part);
        names.push(ByteString::from_slice(alloc, name.as_bytes())?)?;
    }
    Ok(names)
}

/// Returns a text without the white space around it.
fn bare_name(text: &str) -> &str
    ensures { result.now ≡ bare_name text.now }
{
    text.trim_ascii()
}
