//! What follows the header of an item.

ghost use Rattle.std.specs.Prelude.{◌≡◌};
ghost use Rattle.omega_hoa_syntax.specs.private.steps.Contents.{FindsContent, GivesContent};
ghost use Rattle.omega_hoa_syntax.specs.declared.header.name.HeaderKind.TheVariants as header;

use crate::conj::conj;
use crate::expressions::{acceptance_expression, label_expression};
use crate::part::{read_each, read_if};
use crate::raw_item::RawItem;
use crate::single::{NameParameter, Quoted, Word};
use crate::taking::{copy_of_bytes, take_int, take_kind, take_string, take_word};
use omega_hoa_acceptance::AccName;
use omega_text::{HoaKind, Refusal, TokenSource};
use std::alloc::Global;

/// Reads the count of states after `States:`.
pub(crate) fn state_count<'a, S: TokenSource<'a, HoaKind>>(
    source: &mut S,
) -> Result<RawItem, Refusal>
    ensures gives { GivesContent header.States (S.left source.old) (S.left source.new) result }
    ensures finds { FindsContent header.States (S.left source.old) (S.left source.new)
        (S.length source.old) result }
    ensures length { S.length source.new ≡ S.length source.old }
{
    Ok(RawItem::States(take_int(source)?))
}

/// Reads the conj after `Start:`.
pub(crate) fn start<'a, S: TokenSource<'a, HoaKind>>(
    alloc: Global,
    source: &mut S,
) -> Result<RawItem, Refusal>
    ensures gives { GivesContent header.Start (S.left source.old) (S.left source.new) result }
    ensures finds { FindsContent header.Start (S.left source.old) (S.left source.new)
        (S.length source.old) result }
    ensures length { S.length source.new ≡ S.length source.old }
{
    let states = conj(alloc, source)?;
    Ok(RawItem::Start(states))
}

/// Reads the count and the names after `AP:`.
pub(crate) fn propositions<'a, S: TokenSource<'a, HoaKind>>(
    alloc: Global,
    source: &mut S,
) -> Result<RawItem, Refusal>
    ensures gives { GivesContent header.Propositions (S.left source.old) (S.left source.new) result }
    ensures finds { FindsContent header.Propositions
        (S.left source.old) (S.left source.new) (S.length source.old) result }
    ensures length { S.length source.new ≡ S.length source.old }
{
    let count = take_int(source)?;
    let names = read_each::<Quoted, S>(alloc, source)?;
    Ok(RawItem::Propositions { count, names })
}

/// Reads the name and the definition after `Alias:`.
pub(crate) fn alias<'a, S: TokenSource<'a, HoaKind>>(
    alloc: Global,
    source: &mut S,
) -> Result<RawItem, Refusal>
    ensures gives { GivesContent header.Alias (S.left source.old) (S.left source.new) result }
    ensures finds { FindsContent header.Alias (S.left source.old) (S.left source.new)
        (S.length source.old) result }
    ensures length { S.length source.new ≡ S.length source.old }
{
    let token = take_kind(source, HoaKind::AliasName)?;
    let name = copy_of_bytes(alloc, token.text)?;
    let definition = label_expression(alloc, source)?;
    Ok(RawItem::Alias { name, definition })
}

/// Reads the count of sets and the formula after `Acceptance:`.
pub(crate) fn acceptance<'a, S: TokenSource<'a, HoaKind>>(
    alloc: Global,
    source: &mut S,
) -> Result<RawItem, Refusal>
    ensures gives { GivesContent header.Acceptance (S.left source.old) (S.left source.new) result }
    ensures finds { FindsContent header.Acceptance
        (S.left source.old) (S.left source.new) (S.length source.old) result }
    ensures length { S.length source.new ≡ S.length source.old }
{
    let count = take_int(source)?;
    let formula = acceptance_expression(alloc, source)?;
    Ok(RawItem::Acceptance { count, formula })
}

/// Reads the identifier and the parameters after `acc-name:`.
pub(crate) fn acc_name<'a, S: TokenSource<'a, HoaKind>>(
    alloc: Global,
    source: &mut S,
) -> Result<RawItem, Refusal>
    ensures gives { GivesContent header.AccName (S.left source.old) (S.left source.new) result }
    ensures finds { FindsContent header.AccName (S.left source.old) (S.left source.new)
        (S.length source.old) result }
    ensures length { S.length source.new ≡ S.length source.old }
{
    let name = take_word(alloc, source)?;
    let parameters = read_each::<NameParameter, S>(alloc, source)?;
    Ok(RawItem::AccName(AccName { name, parameters }))
}

/// Reads one or two strings after `tool:`.
pub(crate) fn tool<'a, S: TokenSource<'a, HoaKind>>(
    alloc: Global,
    source: &mut S,
) -> Result<RawItem, Refusal>
    ensures gives { GivesContent header.Tool (S.left source.old) (S.left source.new) result }
    ensures finds { FindsContent header.Tool (S.left source.old) (S.left source.new)
        (S.length source.old) result }
    ensures length { S.length source.new ≡ S.length source.old }
{
    let first = take_string(alloc, source)?;
    let second = read_if::<Quoted, S>(alloc, source)?;
    Ok(RawItem::Tool { first, second })
}

/// Reads the string after `name:`.
pub(crate) fn title<'a, S: TokenSource<'a, HoaKind>>(
    alloc: Global,
    source: &mut S,
) -> Result<RawItem, Refusal>
    ensures gives { GivesContent header.Name (S.left source.old) (S.left source.new) result }
    ensures finds { FindsContent header.Name (S.left source.old) (S.left source.new)
        (S.length source.old) result }
    ensures length { S.length source.new ≡ S.length source.old }
{
    Ok(RawItem::Name(take_string(alloc, source)?))
}

/// Reads the identifiers after `properties:`.
pub(crate) fn properties<'a, S: TokenSource<'a, HoaKind>>(
    alloc: Global,
    source: &mut S,
) -> Result<RawItem, Refusal>
    ensures gives { GivesContent header.Properties (S.left source.old) (S.left source.new) result }
    ensures finds { FindsContent header.Properties
        (S.left source.old) (S.left source.new) (S.length source.old) result }
    ensures length { S.length source.new ≡ S.length source.old }
{
    let words = read_each::<Word, S>(alloc, source)?;
    Ok(RawItem::Properties(words))
}
