ghost use Rattle.std.specs.Prelude.{◌≡◌, ◌≤◌, length, IfErr, IfOk, IfSome, IsTrue};
ghost use Rattle.omega_text.specs.Cases.{or_memory};
ghost use Rattle.omega_text.specs.Limits.{most_text};
ghost use Rattle.omega_text.specs.declared.refusal.Refusal.TheVariants.{Text};
ghost use Rattle.omega_text.specs.declared.refusal.text.TextFault.TheVariants.{Syntax};
ghost use Rattle.omega_text.specs.hoa.Cut.{Ends};
ghost use Rattle.omega_hoa.specs.Alone.{IsAutomatonRefusal, IsAutomatonText};
ghost use Rattle.omega_hoa.specs.private.outlines.Outline.{HasFollowed, HasWhole};

use crate::outline::{TextOutline, outline_of};
use crate::segment::{read_front, read_segment, read_written};
use omega_hoa_automaton::Automaton;
use omega_text::{HoaKind, MOST_TEXT, Refusal, TextFault, TokenKind, next_hoa_token};
use std::alloc::Global;

/// Reads the automaton of a text that holds one segment, ended by `--END--`. Refused with a `TextFault`, an
/// `AutomatonFault` or [Refusal::Memory].
///
/// A fault of tokens comes first, wherever it is. Then comes [TextFault::Syntax]:
///
/// - at the first token if that is not `HOA:`;
/// - at the length of a text without the end of a segment;
/// - at an `--ABORT--` that ends the segment;
/// - inside the segment;
/// - at a token after it.
///
/// The meaning of the segment comes last. The bytes of a text that is accepted are read once. Those of another are read
/// up to three times.
pub fn read_one(alloc: Global, bytes: &[u8]) -> Result<Automaton, Refusal>
    ensures automaton { IfOk result (IsAutomatonText bytes.now) }
    ensures refused { IfErr result (or_memory (IsAutomatonRefusal bytes.now)) }
{
    if bytes.len() > MOST_TEXT {
        return Err(Refusal::Text(TextFault::TooLong));
    }
    match read_at_once(alloc, bytes) {
        Some(automaton) => Ok(automaton),
        None => read_outlined(alloc, bytes),
    }
}

/// Reads the automaton of such a text in one pass, if it is accepted. `None` may come for an accepted text too.
fn read_at_once(alloc: Global, bytes: &[u8]) -> Option<Automaton>
    requires { length bytes.now ≤ most_text }
    ensures { IfSome result (IsAutomatonText bytes.now) }
{
    HoaKind::goes_on_one_way();
    let (automaton, end) = read_front(alloc, bytes)?;
    ends_after(bytes, end).then_some(automaton)
}

/// Whether no token of `bytes` follows from `at` on, and no fault.
fn ends_after(bytes: &[u8], at: usize) -> bool
    requires { at ≤ length bytes.now }
    ensures { IsTrue result → Ends bytes.now at }
{
    match next_hoa_token(bytes, at) {
        Ok(next) => next.is_none(),
        Err(_fault) => false,
    }
}

/// Reads the automaton of such a text by the outline of its tokens.
fn read_outlined(alloc: Global, bytes: &[u8]) -> Result<Automaton, Refusal>
    requires { length bytes.now ≤ most_text }
    ensures automaton { IfOk result (IsAutomatonText bytes.now) }
    ensures refused { IfErr result (or_memory (IsAutomatonRefusal bytes.now)) }
{
    let outline = outline_of(bytes)?;
    match outline {
        TextOutline::Whole { end } => read_whole(alloc, bytes, end),
        TextOutline::Followed { end, next } => Err(read_followed(alloc, bytes, end, next)),
        TextOutline::Empty => Err(syntax_fault(bytes.len())),
        TextOutline::Open => Err(syntax_fault(bytes.len())),
        TextOutline::Stray { at } => Err(syntax_fault(at)),
        TextOutline::Aborted { at } => Err(syntax_fault(at)),
    }
}

/// Reads the automaton of a text that is one segment up to `end`.
fn read_whole(alloc: Global, bytes: &[u8], end: usize) -> Result<Automaton, Refusal>
    requires short { length bytes.now ≤ most_text }
    requires whole { HasWhole bytes.now end }
    ensures automaton { IfOk result (IsAutomatonText bytes.now) }
    ensures refused { IfErr result (or_memory (IsAutomatonRefusal bytes.now)) }
{
    HoaKind::goes_on_one_way();
    read_segment(alloc, &bytes[..end], 0)
}

/// Returns the refusal of a text that is one segment up to `end`, and has tokens after it, the first at `next`.
fn read_followed(alloc: Global, bytes: &[u8], end: usize, next: usize) -> Refusal
    requires short { length bytes.now ≤ most_text }
    requires followed { HasFollowed bytes.now end next }
    ensures { or_memory (IsAutomatonRefusal bytes.now) result }
{
    HoaKind::goes_on_one_way();
    match read_written(alloc, &bytes[..end], 0) {
        Ok(_raw) => syntax_fault(next),
        Err(refusal) => refusal,
    }
}

/// Returns [TextFault::Syntax] at the place `at`.
fn syntax_fault(at: usize) -> Refusal
    ensures { result ≡ Text (Syntax at) }
{
    Refusal::Text(TextFault::Syntax { at })
}
