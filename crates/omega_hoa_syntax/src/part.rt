ghost use Rattle.std.specs.Prelude.{◌≡◌, All, IfSome, MatchBool, true, false};
ghost use Rattle.std.specs.List.{AllByRecursion};
ghost use Rattle.omega_hoa_syntax.specs.Grammar.{each, optional_row};
ghost use Rattle.omega_hoa_syntax.specs.First.{FirstIs};
ghost use Rattle.omega_hoa_syntax.specs.private.steps.Reading.{EndsList, Finds, GivesRow, NextIs, NextMayBe};

use crate::raw_edge::RawEdge;
use crate::raw_edges::RawEdges;
use omega_text::{HoaKind, Numbers, Refusal, Seq, TokenSource};
use std::alloc::Global;

/// A part of a text that is recognized by the kind of its first token.
pub(crate) trait Part<'a, S: TokenSource<'a, HoaKind>> {
    ghost use Rattle.std.specs.Prelude.{◌≡◌, ◌++◌, [], Bool, List};
    ghost use Rattle.omega_hoa_syntax.specs.Symbols.{AutomatonSymbol};
    ghost use Rattle.omega_text.specs.declared.hoa.kind.HoaKind.{HoaKind as Kind};

    /// The value that is read.
    type Value: Drop;

    /// Which values can be written.
    ghost valid: { Self.Value → Type 0 };

    /// The symbols of a value, followed by others.
    ghost written: { Self.Value → List AutomatonSymbol → List AutomatonSymbol };

    /// The kinds of the first token of a part.
    ghost first: { Kind → Bool };

    /// The kinds of a token that may follow a part.
    ghost next: { Kind → Type 0 };

    /// Whether a part begins with `kind`.
    fn begins(kind: HoaKind) -> bool
        ensures { result ≡ first kind };

    /// Reads a part. Refused with [TextFault::Syntax] if none is next.
    fn read(alloc: Global, source: &mut S) -> Result<Self::Value, Refusal>
        ensures gives { GivesRow valid written (S.left source.old) (S.left source.new) result }
        ensures finds { Finds valid written (FirstIs next)
            (S.left source.old) (S.left source.new) (S.length source.old) result }
        ensures length { S.length source.new ≡ S.length source.old };

    /// The symbols of a value begin with a first kind.
    ghost begun: { (it : Self.Value) (others : List AutomatonSymbol)
        → valid it → FirstIs (λ kind. first kind ≡ true) (written it others) };

    /// The symbols of a value are the same whatever follows them.
    ghost joins: { (it : Self.Value) (others : List AutomatonSymbol)
        → written it others ≡ written it [] ++ others };

    /// A part may follow another.
    ghost follows: { (kind : Kind) → first kind ≡ true → next kind };
}

/// Whether the next token begins a part.
#[inline(always)]
fn is_next<'a, P: Part<'a, S>, S: TokenSource<'a, HoaKind>>(source: &S) -> bool
    ensures { MatchBool result
        (NextIs (λ kind. P.first kind ≡ true) (S.left source.now))
        (NextMayBe (λ kind. P.first kind ≡ false) (S.left source.now)) }
{
    match source.look() {
        Some(token) => P::begins(token.kind),
        None => false,
    }
}

/// Reads a part, if one is next.
#[inline(always)]
pub(crate) fn read_if<'a, P: Part<'a, S>, S: TokenSource<'a, HoaKind>>(
    alloc: Global,
    source: &mut S,
) -> Result<Option<P::Value>, Refusal>
    ensures gives { GivesRow (λ it. IfSome it P.valid) (optional_row P.written)
        (S.left source.old) (S.left source.new) result }
    ensures finds { Finds (λ it. IfSome it P.valid) (optional_row P.written)
        (FirstIs (EndsList P.first P.next))
        (S.left source.old) (S.left source.new) (S.length source.old) result }
    ensures length { S.length source.new ≡ S.length source.old }
{
    if !is_next::<P, S>(source) {
        return Ok(None);
    }
    let value = P::read(alloc, source)?;
    Ok(Some(value))
}

/// Reads parts as long as the next token begins one, into as much memory as they need.
pub(crate) fn read_each<'a, P: Part<'a, S>, S: TokenSource<'a, HoaKind>>(
    alloc: Global,
    source: &mut S,
) -> Result<Seq<P::Value>, Refusal>
    ensures gives { GivesRow (AllByRecursion P.valid) (each P.written) (S.left source.old)
        (S.left source.new) result }
    ensures finds { Finds (AllByRecursion P.valid) (each P.written) (FirstIs (EndsList P.first P.next))
        (S.left source.old) (S.left source.new) (S.length source.old) result }
    ensures length { S.length source.new ≡ S.length source.old }
{
    let values = read_growing::<P, S>(alloc, source)?;
    Ok(shrunk_values(values))
}

/// Reads parts as long as the next token begins one, into up to twice as much memory as they need.
pub(crate) fn read_growing<'a, P: Part<'a, S>, S: TokenSource<'a, HoaKind>>(
    alloc: Global,
    source: &mut S,
) -> Result<Seq<P::Value>, Refusal>
    ensures gives { GivesRow (AllByRecursion P.valid) (each P.written) (S.left source.old)
        (S.left source.new) result }
    ensures finds { Finds (AllByRecursion P.valid) (each P.written) (FirstIs (EndsList P.first P.next))
        (S.left source.old) (S.left source.new) (S.length source.old) result }
    ensures length { S.length source.new ≡ S.length source.old }
{
    let mut values = Vec::new(alloc);
    while is_next::<P, S>(source) {
        let value = P::read(alloc, source)?;
        values.push(value)?;
    }
    Ok(Seq::from_vec(values))
}

/// Shrinks `values` to as much memory as they need.
fn shrunk_values<T>(values: Seq<T>) -> Seq<T>
    ensures { result ≡ values }
{
    let mut values = values.into_vec();
    values.shrink_to_fit();
    Seq::from_vec(values)
}

/// Reads numbers as long as one is next.
#[inline(always)]
pub(crate) fn read_numbers<'a, P: Part<'a, S, Value = u32>, S: TokenSource<'a, HoaKind>>(
    alloc: Global,
    source: &mut S,
) -> Result<Numbers, Refusal>
    ensures gives { GivesRow (AllByRecursion P.valid) (each P.written) (S.left source.old)
        (S.left source.new) result }
    ensures finds { Finds (AllByRecursion P.valid) (each P.written) (FirstIs (EndsList P.first P.next))
        (S.left source.old) (S.left source.new) (S.length source.old) result }
    ensures length { S.length source.new ≡ S.length source.old }
{
    let mut numbers = Numbers::new();
    while is_next::<P, S>(source) {
        let number = P::read(alloc, source)?;
        numbers.push(alloc, number)?;
    }
    Ok(numbers)
}

/// Reads edges as long as the next token begins one, into up to twice as much memory as they need.
#[inline(always)]
pub(crate) fn read_raw_edges<'a, P: Part<'a, S, Value = RawEdge>, S: TokenSource<'a, HoaKind>>(
    alloc: Global,
    source: &mut S,
) -> Result<RawEdges, Refusal>
    ensures gives { GivesRow (AllByRecursion P.valid) (each P.written) (S.left source.old)
        (S.left source.new) result }
    ensures finds { Finds (AllByRecursion P.valid) (each P.written) (FirstIs (EndsList P.first P.next))
        (S.left source.old) (S.left source.new) (S.length source.old) result }
    ensures length { S.length source.new ≡ S.length source.old }
{
    let mut edges = RawEdges::new(alloc);
    while is_next::<P, S>(source) {
        let edge = P::read(alloc, source)?;
        edges.push(alloc, edge)?;
    }
    Ok(edges)
}
