ghost use Rattle.std.specs.Prelude.{◌≡◌, ◌∷◌, ◌++◌, [], Some, decimal, IfErr, List, OnErr, OnOk};
ghost use Rattle.omega_text.specs.Cases.{IsMemory};
ghost use Rattle.omega_hoa_expression.specs.Writing.{Text, atom_text, joined_text};
ghost use Rattle.omega_hoa_expression.specs.Writing.{negated_text, set_text, truth_text};
ghost use Rattle.omega_hoa_expression.specs.declared.signs.Sign.TheVariants.{Open};
ghost use Rattle.omega_hoa_expression.specs.Texts.{before_text, sign_byte, texts_below, top_text, whole_text};

use crate::leftward::Leftward;
use crate::signs::{Sign, Signs};
use itoa::Buffer;
use omega_text::Refusal;
use std::alloc::Global;

/// The text of an expression, made from its last node to its first and from its last byte to its first. Whether a part
/// needs parentheses is known at its operator, before any of its bytes is written, so no byte moves.
///
/// Up to 128 bytes and 64 signs take no memory.
pub struct Backward {
    /// The bytes so far: the end of the text.
    bytes: Leftward,
    waiting: Signs,
    /// How tightly the next part has to bind to need no parentheses: 1 for `|`, 2 for `&`, 3 for the rest. None if the
    /// text is whole.
    wanted: Option<u32>,
}

impl Drop for Backward {
    fn drop(self) {
        let Backward {
            bytes: _,
            waiting: _,
            wanted: _,
        } = self;
    }
}

impl Backward {
    /// Makes a text without any part.
    pub fn new(alloc: Global) -> Self
        ensures { (texts : List Text) → whole_text result texts ≡ (top_text texts).bytes }
    {
        Backward {
            bytes: Leftward::new(alloc),
            waiting: Signs::new(alloc),
            wanted: Some(0),
        }
    }

    /// Writes `t` or `f`.
    pub fn truth(&mut self, value: bool) -> Result<(), Refusal>
        ensures ok { OnOk result ((texts : List Text) → whole_text self.new texts
            ≡ whole_text self.old (atom_text (truth_text value) ∷ texts)) }
        ensures err { IfErr result IsMemory }
    {
        if self.wanted.is_none() {
            return Ok(());
        }
        self.bytes.push(if value { b't' } else { b'f' })?;
        self.turn()
    }

    /// Writes a number in decimal.
    pub fn number(&mut self, number: u32) -> Result<(), Refusal>
        ensures ok { OnOk result ((texts : List Text) →
            whole_text self.new texts ≡ whole_text self.old (atom_text (decimal number) ∷ texts)) }
        ensures err { IfErr result IsMemory }
    {
        if self.wanted.is_none() {
            return Ok(());
        }
        put_number(&mut self.bytes, number)?;
        self.turn()
    }

    /// Writes a word and a set in parentheses, with `!` before the set or without.
    pub fn set(&mut self, word: &[u8], negated: bool, set: u32) -> Result<(), Refusal>
        ensures ok { OnOk result ((texts : List Text) → whole_text self.new texts
            ≡ whole_text self.old (atom_text (word.now ++ set_text negated set) ∷ texts)) }
        ensures err { IfErr result IsMemory }
    {
        if self.wanted.is_none() {
            return Ok(());
        }
        put_set(&mut self.bytes, word, negated, set)?;
        self.turn()
    }

    /// Writes `!` before the part that comes next.
    pub fn negate(&mut self) -> Result<(), Refusal>
        ensures ok { OnOk result ((texts : List Text) → whole_text self.new texts
            ≡ whole_text self.old (negated_text (top_text texts) ∷ texts_below texts)) }
        ensures err { IfErr result IsMemory }
    {
        if self.wanted.is_some() {
            self.begin(Sign::Not, 3)?;
        }
        Ok(())
    }

    /// Joins the next two parts by `&`; the right one comes first.
    pub fn and(&mut self) -> Result<(), Refusal>
        ensures ok { OnOk result ((texts : List Text) → whole_text self.new texts
            ≡ whole_text self.old (joined_text 2 38 (top_text (texts_below texts)) (top_text texts)
            ∷ texts_below (texts_below texts))) }
        ensures err { IfErr result IsMemory }
    {
        if let Some(rank) = self.wanted {
            if rank > 2 {
                self.parenthesize()?;
            }
            self.begin(Sign::And, 3)?;
        }
        Ok(())
    }

    /// Joins the next two parts by `|`; the right one comes first.
    pub fn or(&mut self) -> Result<(), Refusal>
        ensures ok { OnOk result ((texts : List Text) → whole_text self.new texts
            ≡ whole_text self.old (joined_text 1 124 (top_text (texts_below texts)) (top_text texts)
            ∷ texts_below (texts_below texts))) }
        ensures err { IfErr result IsMemory }
    {
        if let Some(rank) = self.wanted {
            if rank > 1 {
                self.parenthesize()?;
            }
            self.begin(Sign::Or, 2)?;
        }
        Ok(())
    }

    /// Appends the text to `out`, once no part comes any more. A missing part is empty, and a label has none. After a
    /// refusal `out` is as before.
    pub fn append_to(&mut self, out: &mut Vec<u8>) -> Result<(), Refusal>
        ensures ok { OnOk result (out.new.items ≡ out.old.items ++ whole_text self.old []) }
        ensures same { OnErr result (out.new.items ≡ out.old.items) }
        ensures err { IfErr result IsMemory }
    {
        while let Some(sign) = self.waiting.pop() {
            self.bytes.push(byte(sign))?;
        }
        self.bytes.append_to(out)
    }

    /// Puts `sign` before the part that comes next, which needs parentheses unless it binds as tightly as `rank`.
    fn begin(&mut self, sign: Sign, rank: u32) -> Result<(), Refusal>
        ensures waiting { OnOk result (self.new.waiting ≡ sign ∷ self.old.waiting) }
        ensures wanted { OnOk result (self.new.wanted ≡ Some rank) }
        ensures bytes { OnOk result (self.new.bytes ≡ self.old.bytes) }
        ensures err { IfErr result IsMemory }
    {
        self.waiting.push(sign)?;
        self.wanted = Some(rank);
        Ok(())
    }

    /// Puts parentheses around the part that comes next.
    fn parenthesize(&mut self) -> Result<(), Refusal>
        ensures bytes { OnOk result (self.new.bytes ≡ 41 ∷ self.old.bytes) }
        ensures waiting { OnOk result (self.new.waiting ≡ Open ∷ self.old.waiting) }
        ensures wanted { self.new.wanted ≡ self.old.wanted }
        ensures err { IfErr result IsMemory }
    {
        self.bytes.push(b')')?;
        self.waiting.push(Sign::Open)
    }

    /// Writes the signs before the part that was written, up to an operator, whose left part comes next.
    #[inline]
    fn turn(&mut self) -> Result<(), Refusal>
        ensures ok { OnOk result ((texts : List Text) →
            whole_text self.new texts ≡ before_text self.old.waiting texts ++ self.old.bytes) }
        ensures err { IfErr result IsMemory }
    {
        while let Some(sign) = self.waiting.pop() {
            self.bytes.push(byte(sign))?;
            match sign {
                Sign::And => {
                    self.wanted = Some(2);
                    return Ok(());
                }
                Sign::Or => {
                    self.wanted = Some(1);
                    return Ok(());
                }
                Sign::Open | Sign::Not => {}
            }
        }
        self.wanted = None;
        Ok(())
    }
}

/// Returns the byte of `sign`.
fn byte(sign: Sign) -> u8
    ensures { result ≡ sign_byte sign }
{
    match sign {
        Sign::Open => b'(',
        Sign::Not => b'!',
        Sign::And => b'&',
        Sign::Or => b'|',
    }
}

/// Puts `word` and `set` in parentheses before the other bytes, with `!` before the set if `negated`.
fn put_set(bytes: &mut Leftward, word: &[u8], negated: bool, set: u32) -> Result<(), Refusal>
    ensures ok { OnOk result (bytes.new ≡ (word.now ++ set_text negated set) ++ bytes.old) }
    ensures err { IfErr result IsMemory }
{
    bytes.push(b')')?;
    put_number(bytes, set)?;
    if negated {
        bytes.push(b'!')?;
    }
    bytes.push(b'(')?;
    bytes.put(word)
}

/// Puts `number` in decimal before the other bytes.
#[inline(always)]
fn put_number(bytes: &mut Leftward, number: u32) -> Result<(), Refusal>
    ensures ok { OnOk result (bytes.new ≡ decimal number ++ bytes.old) }
    ensures err { IfErr result IsMemory }
{
    // One digit, as most propositions have, needs no buffer.
    if number < 10 {
        bytes.push(b'0' + number as u8)?;
        Ok(())
    } else {
        put_digits(bytes, number)
    }
}

/// Puts `number` in decimal before the other bytes by a buffer, as `put_number` does.
#[inline(never)]
fn put_digits(bytes: &mut Leftward, number: u32) -> Result<(), Refusal>
    ensures ok { OnOk result (bytes.new ≡ decimal number ++ bytes.old) }
    ensures err { IfErr result IsMemory }
{
    let mut buffer = Buffer::new();
    bytes.put(buffer.format(number).as_bytes())
}
