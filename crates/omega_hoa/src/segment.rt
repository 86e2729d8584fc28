ghost use Rattle.std.specs.Prelude.{◌+◌, ◌<◌, ◌^◌, List, length, IfErr, IfOk, IfSome};
ghost use Rattle.omega_text.specs.Cut.{IsCut};
ghost use Rattle.omega_text.specs.Lexeme.{Lexeme};
ghost use Rattle.omega_text.specs.hoa.Format.{hoa_format};
ghost use Rattle.omega_text.specs.declared.hoa.kind.HoaKind.{HoaKind};
ghost use Rattle.omega_hoa.specs.Segment.{IsAutomatonOf, IsRawOf};
ghost use Rattle.omega_hoa.specs.private.Ahead.{BeginsAutomatonTo};
ghost use Rattle.omega_hoa.specs.private.Places.{IsPartFault, IsPartUnread, OfSegment};

use crate::segment_cursor::SegmentCursor;
use omega_hoa_automaton::{Automaton, automaton_of};
use omega_hoa_syntax::{RawAutomaton, read_raw};
use omega_text::laws::cuts_are_one;
use omega_text::{HoaKind, Refusal, TextCursor, TextFault, TokenKind, TokenSource};
use std::alloc::Global;

/// Reads the automaton of a segment that ends with `--END--`. Its `bytes` begin at the place `begins` of a longer text.
///
/// Refused with its [TextFault::Syntax] or `AutomatonFault`, or with [Refusal::Memory]. The place of
/// [TextFault::Syntax] counts from the first byte of that text.
///
/// The bytes are read once.
pub(crate) fn read_segment(alloc: Global, bytes: &[u8], begins: usize) -> Result<Automaton, Refusal>
    requires cut { (lexemes : List (Lexeme HoaKind)) × IsCut hoa_format bytes.now lexemes }
    requires room { begins + length bytes.now < 2 ^ 64 }
    ensures automaton { IfOk result
        (λ automaton. OfSegment bytes.now (λ lexemes. IsAutomatonOf lexemes automaton)) }
    ensures refused { IfErr result
        (λ refusal. OfSegment bytes.now (λ lexemes. IsPartFault begins lexemes refusal)) }
{
    let raw = read_written(alloc, bytes, begins)?;
    automaton_of(alloc, raw)
}

/// Reads the automaton of the segment that `bytes` begin with, if it is whole and ends with `--END--`. Also returns the
/// place after it. The bytes need not be known to be cut.
///
/// `None` may come for an accepted segment too. `read_segment` says why a segment is refused.
///
/// The bytes of the segment are read once, and none after them.
pub(crate) fn read_front(alloc: Global, bytes: &[u8]) -> Option<(Automaton, usize)>
    ensures { IfSome result (λ found. BeginsAutomatonTo bytes.now found.1 found.0) }
{
    HoaKind::goes_on_one_way();
    let mut tokens = SegmentCursor::new(bytes);
    match read_raw(alloc, &mut tokens) {
        Ok(raw) => {
            let end = tokens.place();
            match automaton_of(alloc, raw) {
                Ok(automaton) => Some((automaton, end)),
                Err(_refusal) => None,
            }
        }
        Err(_refusal) => None,
    }
}

/// Reads the automaton of such a segment as it is written, whatever it means. Refused with [TextFault::Syntax] or
/// [Refusal::Memory].
pub(crate) fn read_written(
    alloc: Global,
    bytes: &[u8],
    begins: usize,
) -> Result<RawAutomaton, Refusal>
    requires cut { (lexemes : List (Lexeme HoaKind)) × IsCut hoa_format bytes.now lexemes }
    requires room { begins + length bytes.now < 2 ^ 64 }
    ensures written { IfOk result (λ raw. OfSegment bytes.now (λ lexemes. IsRawOf lexemes raw)) }
    ensures refused { IfErr result
        (λ refusal. OfSegment bytes.now (λ lexemes. IsPartUnread begins lexemes refusal)) }
{
    HoaKind::goes_on_one_way();
    cuts_are_one::<HoaKind>();
    let mut tokens = TextCursor::<HoaKind>::new(bytes);
    match read_raw(alloc, &mut tokens) {
        Ok(raw) => Ok(raw),
        Err(Refusal::Text(TextFault::Syntax { at })) => Err(Refusal::Text(TextFault::Syntax {
            at: begins.saturating_add(at),
        })),
        Err(refusal) => Err(refusal),
    }
}
