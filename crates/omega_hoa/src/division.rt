ghost use Rattle.std.specs.Prelude.{◌≡◌, ◌+◌, ◌-◌, ◌≤◌, ◌↔◌, List, None, Some, false, true, codes};
ghost use Rattle.std.specs.Prelude.{drop, length, take, IfErr, IfNone, IfOk, IfSome, IsTrue, OnErr};
ghost use Rattle.omega_text.specs.declared.hoa.kind.HoaKind.TheVariants.{HeaderName};
ghost use Rattle.omega_hoa.specs.Stream.{is_end};
ghost use Rattle.omega_hoa.specs.declared.item.Item.{Item};
ghost use Rattle.omega_hoa.specs.private.dividing.Next.{AreRefusedAt, AreTakenAs, Extends};
ghost use Rattle.omega_hoa.specs.private.dividing.Next.{IsItemAt, IsNextSettledSome};
ghost use Rattle.omega_hoa.specs.private.dividing.Next.{IsNextSome, IsRefusedAt, IsTakenAs};

use crate::item::Item;
use crate::segment::read_segment;
use omega_text::{HoaKind, PlacedToken, Refusal, Settled, Span, TextFault, TokenKind};
use std::alloc::Global;

/// How the tokens of a stream are divided so far: the end of the last whole segment, and whether another has begun
/// after it.
#[derive(Clone, Copy)]
pub(crate) struct Division {
    pub(crate) begins: usize,
    pub(crate) inside: bool,
}

/// Adds the tokens that a byte settles to `division`, and appends the items of segments that they end to `out`.
///
/// Refused with a `TextFault` but never [TextFault::TooLong], with an `AutomatonFault` or with [Refusal::Memory].
/// After a refusal `out` has the items of the segments before.
///
/// `bytes` are those of the text from `first` on.
pub(crate) fn take_all(
    alloc: Global,
    bytes: &[u8],
    first: usize,
    division: Division,
    settled: Settled,
    out: &mut Vec<Item>,
) -> Result<Division, Refusal>
    requires { IsNextSettledSome bytes.now first division settled }
    ensures taken { IfOk result
        (AreTakenAs bytes.now first division settled out.old.items out.new.items) }
    ensures forward { IfOk result (λ after. division.begins ≤ after.begins) }
    ensures sound { IfOk result (λ _. settled.fault ≡ None) }
    ensures refused { IfErr result
        (AreRefusedAt bytes.now first division settled out.old.items out.new.items) }
    ensures extends { Extends out.old.items out.new.items }
{
    let middle = take_settled(alloc, bytes, first, division, settled.first, out)?;
    let after = take_settled(alloc, bytes, first, middle, settled.second, out)?;
    match settled.fault {
        None => Ok(after),
        Some(fault) => Err(Refusal::Text(fault)),
    }
}

/// Adds one more token to `division`, if there is one, and appends the item of a segment that it ends to `out`.
///
/// Refused with a `TextFault` but never [TextFault::TooLong], with an `AutomatonFault` or with [Refusal::Memory].
/// After a refusal nothing is appended.
///
/// `bytes` are those of the text from `first` on.
fn take_settled(
    alloc: Global,
    bytes: &[u8],
    first: usize,
    division: Division,
    settled: Option<PlacedToken>,
    out: &mut Vec<Item>,
) -> Result<Division, Refusal>
    requires { IsNextSome bytes.now first division settled }
    ensures taken { IfOk result
        (IsTakenAs bytes.now first division settled out.old.items out.new.items) }
    ensures forward { IfOk result (λ after. division.begins ≤ after.begins) }
    ensures refused { IfErr result (IsRefusedAt bytes.now first division settled) }
    ensures err { OnErr result (out.new.items ≡ out.old.items) }
    ensures extends { Extends out.old.items out.new.items }
{
    match settled {
        None => Ok(division),
        Some(token) if division.inside => take_inside(alloc, bytes, first, division, token, out),
        Some(token) => begin_segment(bytes, first, division, token),
    }
}

/// Adds `token` inside a segment: the mark of its end ends it, any other token is one more.
fn take_inside(
    alloc: Global,
    bytes: &[u8],
    first: usize,
    division: Division,
    token: PlacedToken,
    out: &mut Vec<Item>,
) -> Result<Division, Refusal>
    requires next { IsNextSome bytes.now first division (Some token) }
    requires inside { division.inside ≡ true }
    ensures taken { IfOk result
        (IsTakenAs bytes.now first division (Some token) out.old.items out.new.items) }
    ensures forward { IfOk result (λ after. division.begins ≤ after.begins) }
    ensures refused { IfErr result (IsRefusedAt bytes.now first division (Some token)) }
    ensures err { OnErr result (out.new.items ≡ out.old.items) }
    ensures extends { Extends out.old.items out.new.items }
{
    HoaKind::goes_on_one_way();
    match item_at(alloc, bytes, first, division, token)? {
        None => Ok(division),
        Some(item) => {
            out.push(item)?;
            Ok(Division {
                begins: token.span.end,
                inside: false,
            })
        }
    }
}

/// Returns the item of the segment that `token` ends, or none if it ends none.
fn item_at(
    alloc: Global,
    bytes: &[u8],
    first: usize,
    division: Division,
    token: PlacedToken,
) -> Result<Option<Item>, Refusal>
    requires next { IsNextSome bytes.now first division (Some token) }
    requires inside { division.inside ≡ true }
    ensures item { IfOk result (λ found. IfSome found (IsItemAt bytes.now first division token)) }
    ensures none { IfOk result (λ found. IfNone found (is_end token.kind ≡ false)) }
    ensures refused { IfErr result (IsRefusedAt bytes.now first division (Some token)) }
{
    HoaKind::goes_on_one_way();
    match token.kind {
        HoaKind::Abort => Ok(Some(Item::Aborted)),
        HoaKind::End => {
            let span = Span {
                start: division.begins,
                end: token.span.end,
            };
            let automaton = read_segment(alloc, stretch(bytes, first, span), span.start)?;
            Ok(Some(Item::Automaton(automaton)))
        }
        _ => Ok(None),
    }
}

/// Adds `token` outside segments: `HOA:` begins one, and any other token is refused with [TextFault::Syntax].
fn begin_segment(
    bytes: &[u8],
    first: usize,
    division: Division,
    token: PlacedToken,
) -> Result<Division, Refusal>
    requires next { IsNextSome bytes.now first division (Some token) }
    requires outside { division.inside ≡ false }
    ensures taken { IfOk result
        (λ after. (out : List Item) → IsTakenAs bytes.now first division (Some token) out out after) }
    ensures forward { IfOk result (λ after. division.begins ≤ after.begins) }
    ensures refused { IfErr result (IsRefusedAt bytes.now first division (Some token)) }
{
    HoaKind::goes_on_one_way();
    if opens(token.kind, stretch(bytes, first, token.span)) {
        Ok(Division {
            begins: division.begins,
            inside: true,
        })
    } else {
        Err(Refusal::Text(TextFault::Syntax {
            at: token.span.start,
        }))
    }
}

/// Whether a token of this `kind` and `text` is `HOA:`.
pub(crate) fn opens(kind: HoaKind, text: &[u8]) -> bool
    ensures { IsTrue result ↔ ((kind ≡ HeaderName) × (text.now ≡ codes "HOA:")) }
{
    kind == HoaKind::HeaderName && text == b"HOA:".as_slice()
}

/// Returns the bytes of `span`, if `bytes` are those of the text from `first` on.
fn stretch(bytes: &[u8], first: usize, span: Span) -> &[u8]
    requires from { first ≤ span.start }
    requires forward { span.start ≤ span.end }
    requires within { span.end ≤ first + length bytes.now }
    ensures { result.now ≡ take (span.end - span.start) (drop (span.start - first) bytes.now) }
{
    &bytes[span.start - first..span.end - first]
}
