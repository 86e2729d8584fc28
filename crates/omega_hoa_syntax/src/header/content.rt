ghost use Rattle.std.specs.Prelude.{◌≡◌};
ghost use Rattle.omega_hoa_syntax.specs.First.{FirstIs};
ghost use Rattle.omega_hoa_syntax.specs.Grammar.{IsRawItem, header_named, item_row};
ghost use Rattle.omega_hoa_syntax.specs.private.steps.Contents.{FindsUnknown, GivesUnknown};
ghost use Rattle.omega_hoa_syntax.specs.private.steps.Parts.{EndsItem};
ghost use Rattle.omega_hoa_syntax.specs.private.steps.Reading.{Finds, GivesRow};
ghost use Rattle.omega_hoa_syntax.specs.declared.header.name.HeaderKind.TheVariants as header;

use crate::header::known;
use crate::header::name::HeaderKind;
use crate::part::read_each;
use crate::raw_item::RawItem;
use crate::single::UnknownValue;
use crate::taking::{copy_of_bytes, take_kind, without_colon};
use omega_text::{HoaKind, Refusal, TextFault, TokenSource};
use std::alloc::Global;

/// Reads a header and what follows it. Refused with [TextFault::Syntax] at the header's place if no item has its name.
pub(crate) fn content<'a, S: TokenSource<'a, HoaKind>>(
    alloc: Global,
    source: &mut S,
) -> Result<RawItem, Refusal>
    ensures gives { GivesRow IsRawItem item_row (S.left source.old) (S.left source.new) result }
    ensures finds { Finds IsRawItem item_row (FirstIs EndsItem)
        (S.left source.old) (S.left source.new) (S.length source.old) result }
    ensures length { S.length source.new ≡ S.length source.old }
{
    let at = source.place();
    let token = take_kind(source, HoaKind::HeaderName)?;
    let name = without_colon(token.text);
    match HeaderKind::of_name(name) {
        HeaderKind::Format => Err(Refusal::Text(TextFault::Syntax { at })),
        HeaderKind::State => Err(Refusal::Text(TextFault::Syntax { at })),
        HeaderKind::States => known::state_count(source),
        HeaderKind::Start => known::start(alloc, source),
        HeaderKind::Propositions => known::propositions(alloc, source),
        HeaderKind::Alias => known::alias(alloc, source),
        HeaderKind::Acceptance => known::acceptance(alloc, source),
        HeaderKind::AccName => known::acc_name(alloc, source),
        HeaderKind::Tool => known::tool(alloc, source),
        HeaderKind::Name => known::title(alloc, source),
        HeaderKind::Properties => known::properties(alloc, source),
        HeaderKind::Unknown => unknown_item(alloc, name, source),
    }
}

/// Reads the values after an unknown header.
fn unknown_item<'a, S: TokenSource<'a, HoaKind>>(
    alloc: Global,
    name: &[u8],
    source: &mut S,
) -> Result<RawItem, Refusal>
    requires { header_named name.now ≡ header.Unknown }
    ensures gives { GivesUnknown name.now (S.left source.old) (S.left source.new) result }
    ensures finds { FindsUnknown name.now (S.left source.old) (S.left source.new)
        (S.length source.old) result }
    ensures length { S.length source.new ≡ S.length source.old }
{
    let name = copy_of_bytes(alloc, name)?;
    let values = read_each::<UnknownValue, S>(alloc, source)?;
    Ok(RawItem::Unknown { name, values })
}
