ghost use Rattle.std.specs.Prelude.{◌≡◌, ◌≢◌, ◌+◌, ◌<◌, ◌≤◌, ◌++◌, [], List, ℕ, None, Some};
ghost use Rattle.std.specs.Prelude.{Err, drop, length, vec_len, IfErr, IfOk, IfSome, OnOk, ◌⊎◌};
ghost use Rattle.omega_text.specs.Limits.{most_text};
ghost use Rattle.omega_text.specs.declared.refusal.Refusal.TheVariants.{Memory, Text};
ghost use Rattle.omega_text.specs.declared.refusal.text.TextFault.TheVariants.{TooLong};
ghost use Rattle.omega_hoa.specs.declared.item.Item.{Item};
ghost use Rattle.omega_hoa.specs.private.dividing.Next.{Extends, IsProgressSome, IsReadAs, IsRefusedFrom};

use crate::division::Division;
use crate::ending::{end_inside, end_outside};
use crate::item::Item;
use crate::progress::{ReadProgress, read_bytes};
use omega_text::{ByteTokenizer, HoaKind, HoaTokenizer, MOST_TEXT, Refusal, TextFault, TokenKind};
use std::alloc::Global;
use std::marker::Model;

/// A reader of a stream of automata that comes in pieces, cut anywhere.
///
/// It keeps the bytes after the last whole segment, the place at which they begin, how they are cut so far, and a
/// refusal once there is one.
pub struct Stream {
    bytes: Vec<u8>,
    begins: usize,
    inside: bool,
    tokenizer: HoaTokenizer,
    refused: Option<Refusal>,
}

impl Drop for Stream {
    fn drop(self) {
        let Stream {
            bytes: _,
            begins: _,
            inside: _,
            tokenizer: _,
            refused: _,
        } = self;
    }
}

impl Model for Stream {
    ghost use Rattle.omega_hoa.specs.Kept.{Kept};

    ghost Value = { Kept };

    ghost use Rattle.omega_hoa.specs.private.dividing.Fed.{IsFedSome, kept_in};

    ghost view = { kept_in };

    ghost invariant = { λ s. IsFedSome (kept_in s) s.tokenizer };
}

impl Stream {
    ghost use Rattle.std.specs.Result.{result_err};
    ghost use Rattle.omega_hoa.specs.Feeding.{EndsAsStream, EndsInFault, IsFed, IsRefusedWith, TakesPiece};
    ghost use Rattle.omega_hoa.specs.Laws.{IsAnsweredAtEnd};
    ghost use Rattle.omega_hoa.specs.private.dividing.Fed.{AppendsItems};

    /// Makes a stream before its first byte. No memory is taken.
    pub fn new(alloc: Global) -> Stream
        ensures fed { IsFed [] [] result }
        ensures unrefused { result.refused ≡ None }
        ensures empty { result.bytes ≡ [] }
        ensures start { result.begins ≡ 0 }
    {
        Stream {
            bytes: Vec::new(alloc),
            begins: 0,
            inside: false,
            tokenizer: HoaTokenizer::new(),
            refused: None,
        }
    }

    /// Reads the next piece, and appends the items of the segments that end in it to `out`. Refused with a `TextFault`
    /// or an `AutomatonFault` in the call whose piece settles it, or with [Refusal::Memory].
    ///
    /// A piece that would bring the bytes above `MOST_TEXT` is refused with [TextFault::TooLong], and nothing of it is
    /// taken. After [Refusal::Memory] the stream and `out` are as before, and the piece may be fed again. After any
    /// other refusal `out` has the items before it, and each later call returns the same refusal.
    ///
    /// The law `pieces_change_nothing` asks of each call what `taken` says here.
    ///
    /// A piece is kept until its segments have ended. Each byte is scanned once, and those of a segment that ends once
    /// more.
    pub fn feed(&mut self, piece: &[u8], out: &mut Vec<Item>) -> Result<(), Refusal>
        ensures refused_before { IfSome self.old.refused (λ refusal. (result ≡ Err refusal)
            × (self.new ≡ self.old) × (out.new.items ≡ out.old.items)) }
        ensures too_long { self.old.refused ≡ None
            → most_text < self.old.begins + length self.old.bytes + length piece.now
            → (result ≡ Err (Text TooLong))
            × (self.new ≡ record self.old { refused = Some (Text TooLong) })
            × (out.new.items ≡ out.old.items) }
        ensures memory { result ≡ Err Memory
            → (self.new ≡ self.old) × (out.new.items ≡ out.old.items) }
        ensures taken { (result ≡ Err Memory → ⊥)
            → (given : List Item)
            × (out.new.items ≡ out.old.items ++ given)
            × TakesPiece self.old piece.now given self.new }
        ensures refused { self.old.refused ≡ None
            → self.old.begins + length self.old.bytes + length piece.now ≤ most_text
            → IfErr result (IsRefusedWith self.old piece.now out.old.items out.new.items) }
        ensures ok { OnOk result (self.new.refused ≡ None) }
        ensures kept { IfErr result
            (λ refusal. (refusal ≡ Memory) ⊎ (self.new.refused ≡ Some refusal)) }
    {
        match self.refused {
            Some(refusal) => Err(refusal),
            None => self.feed_sound(piece, out),
        }
    }

    /// Ends the stream. Refused with [TextFault::Lex], [TextFault::Number], [TextFault::Syntax] or the refusal that is
    /// kept. No memory is taken.
    ///
    /// A fault of tokens that the end settles comes first. Then comes [TextFault::Syntax], at a token outside segments
    /// that the end settles, or at the length of the bytes inside one.
    pub fn finish(self) -> Result<(), Refusal>
        ensures refused_before { IfSome self.refused (λ refusal. result ≡ Err refusal) }
        ensures ok { OnOk result (EndsAsStream self) }
        ensures refused { self.refused ≡ None → IfErr result (EndsInFault self) }
        ensures answered { (seen : List ℕ) (items : List Item)
            → IsFed seen items self → IsAnsweredAtEnd seen items self (result_err result) }
        ensures memory { IfErr result (λ refusal. refusal ≢ Memory) }
    {
        match self.refused {
            Some(refusal) => Err(refusal),
            None => {
                let settled = self.tokenizer.finish();
                if self.inside {
                    Err(end_inside(settled, self.begins + self.bytes.len()))
                } else {
                    end_outside(settled)
                }
            }
        }
    }

    /// Reads the next piece as `feed` does, if nothing was refused before.
    fn feed_sound(&mut self, piece: &[u8], out: &mut Vec<Item>) -> Result<(), Refusal>
        requires { self.old.refused ≡ None }
        ensures too_long { most_text < self.old.begins + length self.old.bytes + length piece.now
            → (result ≡ Err (Text TooLong))
            × (self.new ≡ record self.old { refused = Some (Text TooLong) })
            × (out.new.items ≡ out.old.items) }
        ensures memory { result ≡ Err Memory
            → (self.new ≡ self.old) × (out.new.items ≡ out.old.items) }
        ensures taken { (result ≡ Err Memory → ⊥)
            → AppendsItems self.old piece.now out.old.items out.new.items self.new }
        ensures extends { (result ≡ Err Memory → ⊥) → Extends out.old.items out.new.items }
        ensures refused { self.old.begins + length self.old.bytes + length piece.now ≤ most_text
            → IfErr result (IsRefusedWith self.old piece.now out.old.items out.new.items) }
        ensures ok { OnOk result (self.new.refused ≡ None) }
        ensures kept { IfErr result
            (λ refusal. (refusal ≡ Memory) ⊎ (self.new.refused ≡ Some refusal)) }
    {
        HoaKind::goes_on_one_way();
        let held = self.bytes.len();
        if piece.len() > MOST_TEXT - (self.begins + held) {
            let refusal = Refusal::Text(TextFault::TooLong);
            self.refused = Some(refusal);
            return Err(refusal);
        }
        let alloc = *self.bytes.allocator();
        let progress = ReadProgress {
            tokenizer: self.tokenizer,
            division: Division {
                begins: self.begins,
                inside: self.inside,
            },
        };
        self.bytes.extend_from_slice(piece)?;
        match read_piece(
            alloc,
            self.bytes.as_slice(),
            self.begins,
            held,
            progress,
            out,
        ) {
            Ok(after) => {
                drop_front(&mut self.bytes, after.division.begins - self.begins);
                self.begins = after.division.begins;
                self.inside = after.division.inside;
                self.tokenizer = after.tokenizer;
                Ok(())
            }
            Err(refusal) => match refusal {
                Refusal::Memory => {
                    self.bytes.truncate(held);
                    Err(Refusal::Memory)
                }
                other => {
                    self.refused = Some(other);
                    Err(other)
                }
            },
        }
    }
}

/// Reads the bytes from `from` to their end, as `read_bytes` does. If memory is refused, nothing is appended.
fn read_piece(
    alloc: Global,
    bytes: &[u8],
    first: usize,
    from: usize,
    progress: ReadProgress,
    out: &mut Vec<Item>,
) -> Result<ReadProgress, Refusal>
    requires within { from ≤ length bytes.now }
    requires so_far { IsProgressSome bytes.now first from progress }
    ensures read { IfOk result
        (IsReadAs bytes.now first from (length bytes.now) progress out.old.items out.new.items) }
    ensures refused { IfErr result
        (IsRefusedFrom bytes.now first from progress out.old.items out.new.items) }
    ensures memory { result ≡ Err Memory → out.new.items ≡ out.old.items }
    ensures extends { (result ≡ Err Memory → ⊥) → Extends out.old.items out.new.items }
{
    let held = out.len();
    let answer = read_bytes(alloc, bytes, first, from, progress, out);
    if let Err(Refusal::Memory) = answer {
        out.truncate(held);
    }
    answer
}

/// Drops the first `count` bytes. If at most `count` bytes are left, they are copied at once.
fn drop_front(bytes: &mut Vec<u8>, count: usize)
    requires { count ≤ vec_len bytes.old }
    ensures { bytes.new.items ≡ drop count bytes.old.items }
{
    let left = bytes.len() - count;
    if count < left {
        let _front = bytes.drain(..count);
    } else {
        let (front, rest) = bytes.as_mut_slice().split_at_mut(count);
        front[..left].copy_from_slice(rest);
        bytes.truncate(left);
    }
}
