ghost use Rattle.std.specs.Prelude.{◌≡◌, ◌<◌, ◌-◌, ◌^◌, [], ◌∷◌, ◌++◌, false, ℕ, IfSome, List, None, length};
ghost use Rattle.omega_text.specs.Lexeme.{Lexeme};
ghost use Rattle.omega_text.specs.declared.hoa.kind.HoaKind.{HoaKind};
ghost use Rattle.omega_text.specs.hoa.Laws.{is_closed};
ghost use Rattle.omega_text.specs.private.hoa.scanning.Modes.{next_mode};
ghost use Rattle.omega_text.specs.hoa.Pieces.{IsCutUpToFault, settled_lexemes};
ghost use Rattle.omega_text.specs.private.hoa.scanning.Reading.{Any, IsAt, IsKept, IsOnWay};

use super::byte_tokenizer::ByteTokenizer;
use super::mode::{Mode, first_mode};
use super::passing::pass_bytes;
use super::pending::Pending;
use super::placed::{PlacedToken, Settled};
use crate::refusal::TextFault;

/// A `ByteTokenizer` that keeps a few words and takes no memory.
#[derive(Clone, Copy, Debug, PartialEq, Eq)]
pub struct HoaTokenizer {
    pending: Pending,
    /// The number of bytes read.
    place: usize,
    fault: Option<TextFault>,
}

impl ByteTokenizer for HoaTokenizer {
    ghost use Rattle.omega_text.specs.private.hoa.scanning.Reading.{HasRead};

    ghost read = { λ tokenizer seen lexemes. HasRead seen lexemes tokenizer };

    ghost fault = { λ tokenizer. tokenizer.fault };

    fn new() -> HoaTokenizer {
        HoaTokenizer {
            pending: Pending::new(0),
            place: 0,
            fault: None,
        }
    }

    fn after(count: usize) -> HoaTokenizer {
        HoaTokenizer {
            pending: Pending::new(count),
            place: count,
            fault: None,
        }
    }

    #[inline(always)]
    fn step(&mut self, byte: u8) -> Settled {
        let place = self.place;
        self.place = place + 1;
        match self.fault {
            Some(fault) => settled_tokens(None, None, Some(fault)),
            None => {
                let (pending, settled) = read_byte(self.pending, place, byte);
                self.pending = pending;
                self.fault = settled.fault;
                settled
            }
        }
    }

    fn pass(&mut self, bytes: &[u8], from: usize) -> usize {
        match self.fault {
            Some(_fault) => from,
            None => {
                let (after, place) = pass_bytes(self.pending, self.place, bytes, from);
                self.pending = after;
                self.place += place - from;
                place
            }
        }
    }

    fn finish(&self) -> Settled {
        match self.fault {
            Some(fault) => settled_tokens(None, None, Some(fault)),
            None => end_of_text(self.pending, self.place),
        }
    }

    fn read_is_settled(&self) {}

    fn read_forgets_whole_tokens(&self) {}
}

#[inline(always)]
fn settled_tokens(
    first: Option<PlacedToken>,
    second: Option<PlacedToken>,
    fault: Option<TextFault>,
) -> Settled
    ensures first { result.first ≡ first }
    ensures second { result.second ≡ second }
    ensures fault { result.fault ≡ fault }
{
    Settled {
        first,
        second,
        fault,
    }
}

/// Reads `byte` at `place` into `pending`, if the unit goes on so.
#[inline(always)]
pub(super) fn read_byte(pending: Pending, place: usize, byte: u8) -> (Pending, Settled)
    requires { IsOnWay pending place }
    ensures { (seen : List ℕ) (lexemes : List (Lexeme HoaKind)) → place ≡ length seen
        → IsAt Any seen lexemes pending → IsKept result.1.fault (seen ++ byte ∷ [])
        (lexemes ++ settled_lexemes (seen ++ byte ∷ []) result.1) result.0 }
{
    match pending.mode.next(byte) {
        Some(next) => {
            let (after, token) = pending.grow(next, byte, place + 1);
            (after, settled_tokens(None, token, None))
        }
        None => end_unit(pending, place, byte),
    }
}

/// Ends the unit `pending` before `byte` at `place`, and begins another with it.
#[inline(always)]
fn end_unit(pending: Pending, place: usize, byte: u8) -> (Pending, Settled)
    requires { place < 2 ^ 64 - 1 }
    ensures { (seen : List ℕ) (lexemes : List (Lexeme HoaKind)) → place ≡ length seen
        → IsAt Any seen lexemes pending → next_mode pending.mode byte ≡ None → IsKept result.1.fault
        (seen ++ byte ∷ []) (lexemes ++ settled_lexemes (seen ++ byte ∷ []) result.1) result.0 }
{
    let fresh = Pending::new(place);
    match pending.judge(place) {
        Err(fault) => (fresh, settled_tokens(None, None, Some(fault))),
        Ok(token) => match first_mode(byte) {
            None => {
                let fault = TextFault::Lex { at: place };
                (fresh, settled_tokens(Some(token), None, Some(fault)))
            }
            Some(next) => {
                let (after, second) = fresh.grow(next, byte, place + 1);
                (after, settled_tokens(Some(token), second, None))
            }
        },
    }
}

/// Returns what is settled if the text ends at `place`.
fn end_of_text(pending: Pending, place: usize) -> Settled
    ensures finishes { (seen : List ℕ) (lexemes : List (Lexeme HoaKind)) → place ≡ length seen
        → IsAt Any seen lexemes pending
        → IsCutUpToFault result.fault seen (lexemes ++ settled_lexemes seen result) }
    ensures second { result.second ≡ None }
    ensures unclosed { (seen : List ℕ) (lexemes : List (Lexeme HoaKind))
        → IsAt Any seen lexemes pending
        → IfSome result.first (λ token. is_closed token.kind ≡ false) }
{
    match pending.mode.get() {
        Mode::Start => settled_tokens(None, None, None),
        _ => match pending.judge(place) {
            Ok(token) => settled_tokens(Some(token), None, None),
            Err(fault) => settled_tokens(None, None, Some(fault)),
        },
    }
}
