//! The letters of a word, read from tokens.

ghost use Rattle.std.specs.Prelude.{◌≡◌, [], ◌∷◌, IfErr, IfOk, OnOk};
ghost use Rattle.omega_hoa_expression.specs.Passing.{NextIsNot};
ghost use Rattle.omega_hoa_expression.specs.Unread.{IsUnread};
ghost use Rattle.omega_text.specs.declared.hoa.kind.HoaKind.TheVariants as kinds;
ghost use Rattle.omega_lang_word_text.specs.Grammar.{BeginsWord, ReadsNoWord, ReadsWord};
ghost use Rattle.omega_lang_word_text.specs.private.Parts.{BeginsPart, ReadsBraced};
ghost use Rattle.omega_lang_word_text.specs.private.Parts.{ReadsCycle, ReadsNo, ReadsOthers};
ghost use Rattle.omega_lang_word_text.specs.private.Stems.{LeadsToWord};

use omega_hoa_expression::{is_passed, pass};
use omega_hoa_label::RawLabel;
use omega_hoa_label_text::{labels_are_one, read_raw_label};
use omega_text::{HoaKind, Refusal, TextFault, TokenSource};
use std::alloc::Global;

/// The letters of a word.
#[derive(Drop)]
pub(crate) struct Letters {
    pub(crate) stem: Vec<RawLabel>,
    pub(crate) cycle: Cycle,
}

/// The letters of a cycle.
#[derive(Drop)]
pub(crate) struct Cycle {
    pub(crate) first: RawLabel,
    pub(crate) others: Vec<RawLabel>,
}

/// Reads the letters of a word. Fails with [TextFault::Syntax] at the first token with which no word goes on, or at the
/// length of the text.
pub(crate) fn read_letters<'a, S: TokenSource<'a, HoaKind>>(
    alloc: Global,
    source: &mut S,
) -> Result<Letters, Refusal>
    ensures ok { IfOk result (λ letters. ReadsWord (S.left source.old) letters.stem.items
        (letters.cycle.first ∷ letters.cycle.others.items)) }
    ensures err { IfErr result
        (IsUnread ReadsNoWord BeginsWord (S.left source.old) (S.length source.old)) }
{
    let stem = read_stem(alloc, source)?;
    let cycle = read_braced(alloc, source)?;
    Ok(Letters { stem, cycle })
}

/// Reads the letters of a stem, `;` after each, and `cycle`.
fn read_stem<'a, S: TokenSource<'a, HoaKind>>(
    alloc: Global,
    source: &mut S,
) -> Result<Vec<RawLabel>, Refusal>
    ensures leads { IfOk result (λ stem.
        LeadsToWord (S.left source.old) stem.items (S.left source.new)) }
    ensures err { IfErr result
        (IsUnread ReadsNoWord BeginsWord (S.left source.old) (S.length source.old)) }
    ensures length { S.length source.new ≡ S.length source.old }
{
    labels_are_one();
    let mut stem = Vec::new(alloc);
    while !is_passed(source, HoaKind::Body) {
        let letter = read_raw_label(alloc, source)?;
        pass(source, HoaKind::End)?;
        stem.push(letter)?;
    }
    Ok(stem)
}

/// Reads `{`, the letters of a cycle and `}`, at the end of the text.
fn read_braced<'a, S: TokenSource<'a, HoaKind>>(
    alloc: Global,
    source: &mut S,
) -> Result<Cycle, Refusal>
    ensures ok { IfOk result
        (λ cycle. ReadsBraced (S.left source.old) (cycle.first ∷ cycle.others.items)) }
    ensures err { IfErr result (IsUnread (ReadsNo ReadsBraced) (BeginsPart ReadsBraced)
        (S.left source.old) (S.length source.old)) }
{
    pass(source, HoaKind::OpenBrace)?;
    read_cycle(alloc, source)
}

/// Reads the letters of a cycle, `;` between each two, and `}`, at the end of the text.
fn read_cycle<'a, S: TokenSource<'a, HoaKind>>(
    alloc: Global,
    source: &mut S,
) -> Result<Cycle, Refusal>
    ensures ok { IfOk result
        (λ cycle. ReadsCycle (S.left source.old) (cycle.first ∷ cycle.others.items)) }
    ensures err { IfErr result (IsUnread (ReadsNo ReadsCycle) (BeginsPart ReadsCycle)
        (S.left source.old) (S.length source.old)) }
{
    labels_are_one();
    let first = read_raw_label(alloc, source)?;
    let others = read_others(alloc, source)?;
    Ok(Cycle { first, others })
}

/// Reads further letters of a cycle, `;` before each, and `}`, at the end of the text.
fn read_others<'a, S: TokenSource<'a, HoaKind>>(
    alloc: Global,
    source: &mut S,
) -> Result<Vec<RawLabel>, Refusal>
    ensures ok { IfOk result (λ others. ReadsOthers (S.left source.old) others.items) }
    ensures err { IfErr result (IsUnread (ReadsNo ReadsOthers) (BeginsPart ReadsOthers)
        (S.left source.old) (S.length source.old)) }
{
    labels_are_one();
    let mut others = Vec::new(alloc);
    while is_passed(source, HoaKind::End) {
        let letter = read_raw_label(alloc, source)?;
        others.push(letter)?;
    }
    end(source)?;
    Ok(others)
}

/// Passes `}`, at the end of the text, where no `;` is.
fn end<'a, S: TokenSource<'a, HoaKind>>(source: &mut S) -> Result<(), Refusal>
    requires { NextIsNot kinds.End (S.left source.old) }
    ensures ok { OnOk result (ReadsOthers (S.left source.old) []) }
    ensures err { IfErr result (IsUnread (ReadsNo ReadsOthers) (BeginsPart ReadsOthers)
        (S.left source.old) (S.length source.old)) }
{
    pass(source, HoaKind::CloseBrace)?;
    if source.look().is_some() {
        let at = source.place();
        return Err(Refusal::Text(TextFault::Syntax { at }));
    }
    Ok(())
}
