ghost use Rattle.std.specs.Prelude.{◌≡◌, ◌<◌, ◌-◌, ◌≤◌, [], ◌∷◌, ◌++◌, false};
ghost use Rattle.std.specs.Prelude.{IfSome, None, drop, length, slice_index, take};
ghost use Rattle.omega_text.specs.hoa.Laws.{is_closed};
ghost use Rattle.omega_text.specs.hoa.Pieces.{DiffersBefore, EndsClosed, HasPassed, HasRoom, IsCutUpToFault};
ghost use Rattle.omega_text.specs.hoa.Pieces.{IsSettled, StopsBefore, settled_lexemes};

use super::placed::Settled;

/// Cuts a Hanoi text that comes byte by byte, in pieces of any length, into the tokens that `hoa_tokens` returns for
/// the whole.
///
/// A token is settled by the first byte that is not part of it, or at the end. Signs, marks, header names and strings
/// are settled by their last byte.
///
/// A fault is settled by the first byte that rules out a token. The fault of a number is settled when its digits have
/// ended, and that of a string or comment without end at the end. After a fault nothing more is settled.
///
/// Contracts say what was read and settled so far, and not how it is kept. No call takes memory.
pub trait ByteTokenizer {
    ghost use Rattle.std.specs.Prelude.{ℕ, List, Option};
    ghost use Rattle.omega_text.specs.Lexeme.{Lexeme};
    ghost use Rattle.omega_text.specs.declared.hoa.kind.HoaKind.{HoaKind};
    ghost use Rattle.omega_text.specs.declared.refusal.text.TextFault.{TextFault};

    /// These bytes were read, and these tokens of them were settled.
    ghost read: { Self → List ℕ → List (Lexeme HoaKind) → Type 0 };

    /// The fault after these tokens, once one is settled.
    ghost fault: { Self → Option TextFault };

    /// Makes a tokenizer before the first byte.
    fn new() -> Self
        ensures reads { read result [] [] }
        ensures sound { fault result ≡ None };

    /// Makes a tokenizer after the first `count` bytes of a text whose tokens are known up to there. The last of them
    /// ends by itself: it is a header name, a string, a mark or a sign.
    fn after(count: usize) -> Self
        ensures reads { (seen : List ℕ) (lexemes : List (Lexeme HoaKind)) → count ≡ length seen
            → EndsClosed seen lexemes → read result seen lexemes }
        ensures sound { fault result ≡ None };

    /// Reads `byte`, and returns what it settles.
    fn step(&mut self, byte: u8) -> Settled
        requires room { HasRoom (read self.old) 1 }
        ensures reads { (seen : List ℕ) (lexemes : List (Lexeme HoaKind))
            → read self.old seen lexemes → read self.new (seen ++ byte ∷ [])
            (lexemes ++ settled_lexemes (seen ++ byte ∷ []) result) }
        ensures settles { (seen : List ℕ) (lexemes : List (Lexeme HoaKind))
            → read self.old seen lexemes → IsSettled result.fault (seen ++ byte ∷ [])
            (lexemes ++ settled_lexemes (seen ++ byte ∷ []) result) }
        ensures fault { result.fault ≡ fault self.new };

    /// Reads bytes from `from` on, up to one that settles a mark or a fault. Returns the place of that byte, or the
    /// end. Tokens settled before it are not returned.
    ///
    /// The result is that of as many calls of `step`, in a fraction of their time. Each byte is looked at once, or a
    /// few times if it ends a word or a number, or is in a mark or a number of many digits.
    fn pass(&mut self, bytes: &[u8], from: usize) -> usize
        requires within { from ≤ length bytes.now }
        requires room { HasRoom (read self.old) (length bytes.now - from) }
        ensures forward { from ≤ result }
        ensures end { result ≤ length bytes.now }
        ensures reads { (seen : List ℕ) (lexemes : List (Lexeme HoaKind)) → read self.old seen lexemes
            → HasPassed (read self.new) seen lexemes (take (result - from) (drop from bytes.now)) }
        ensures stops { result < length bytes.now → (seen : List ℕ) (lexemes : List (Lexeme HoaKind))
            → read self.new seen lexemes → StopsBefore seen lexemes (slice_index bytes.now result) }
        ensures sound { fault self.new ≡ fault self.old };

    /// Returns what is settled if the text ends here: at most one token, and none that its own last byte settles.
    fn finish(&self) -> Settled
        ensures finishes { (seen : List ℕ) (lexemes : List (Lexeme HoaKind))
            → read self.now seen lexemes
            → IsCutUpToFault result.fault seen (lexemes ++ settled_lexemes seen result) }
        ensures second { result.second ≡ None }
        ensures unclosed { (seen : List ℕ) (lexemes : List (Lexeme HoaKind))
            → read self.now seen lexemes
            → IfSome result.first (λ token. is_closed token.kind ≡ false) };

    /// States that what was settled so far is settled however the text goes on. An implementation proves this law.
    fn read_is_settled(&self)
        ensures { (seen : List ℕ) (lexemes : List (Lexeme HoaKind))
            → read self.now seen lexemes → IsSettled (fault self.now) seen lexemes };

    /// States that tokens are forgotten once they are whole: if one text was read, so was each that differs from it
    /// only before a place where whole tokens of both end. An implementation proves this law.
    fn read_forgets_whole_tokens(&self)
        ensures { fault self.now ≡ None
            → (place : ℕ) (one other : List ℕ) (front another rest : List (Lexeme HoaKind))
            → DiffersBefore place one front other another
            → read self.now one (front ++ rest) → read self.now other (another ++ rest) };
}
