ghost use Rattle.std.specs.Prelude.{◌≡◌, ◌+◌, ◌^◌, ◌≤◌, ◌<◌, ℕ, true, false, take, drop, length};
ghost use Rattle.std.specs.Prelude.{decimal, MatchBool, IfOk, IfErr, IfSome, IfNone, slice_index};
ghost use Rattle.std.specs.List.{AllPass, prefix_len};
ghost use Rattle.std.specs.Str.Parse.{digits_value};
ghost use Rattle.omega_text.specs.Bytes.{is_digit, is_letter, is_white};
ghost use Rattle.omega_text.specs.pg.Cut.{Follows, IsGap};
ghost use Rattle.omega_text.specs.private.pg.FirstForm.{IsFirstForm};
ghost use Rattle.omega_text.specs.pg.Fault.{HasFaultFrom, IsFaultOf};
ghost use Rattle.omega_text.specs.Forms.{IsDigits};
ghost use Rattle.omega_text.specs.pg.Forms.{IsNoToken};
ghost use Rattle.omega_text.specs.Format.{IsPartAfter};
ghost use Rattle.omega_text.specs.Lexeme.{lexeme_at, lexeme_of};
ghost use Rattle.omega_text.specs.Limits.{most_number};
ghost use Rattle.omega_text.specs.declared.pg.kind.PgKind.TheVariants.{Number};

use super::digits::ended_digits;
use super::kind::PgKind;
use super::name::name_count;
use crate::bytes::{is_letter, is_white, tail, word_count};
use crate::digits::{front_digits, has_needless_zero};
use crate::limits::MOST_NUMBER;
use crate::refusal::TextFault;
use crate::token::{Span, Token};

/// Returns the next token of a game text from `at` on, or none if only white space is left.
///
/// White space before the token is skipped. A fault is [TextFault::Lex] or [TextFault::Number], at the least place from
/// there.
///
/// No memory is taken, and no byte after the token is looked at, except the one after a number or a word.
#[inline(always)]
pub fn next_pg_token(source: &[u8], at: usize) -> Result<Option<Token<'_, PgKind>>, TextFault>
    requires { at ≤ length source.now }
    ensures token { IfOk result
        (λ found. IfSome found (λ token. Follows source.now at (lexeme_of token))) }
    ensures end { IfOk result (λ found. IfNone found (IsGap source.now at (length source.now))) }
    ensures fault { IfErr result (HasFaultFrom source.now at) }
    ensures progress { IfOk result
        (λ found. IfSome found (λ token. IsPartAfter source.now at token.span)) }
{
    let start = gap_end(source, at);
    if start == source.len() {
        return Ok(None);
    }
    let bytes = tail(source, start);
    if let Some(front) = plain_number(bytes) {
        return Ok(Some(front_token(bytes, start, front)));
    }
    let front = first_form(bytes, start)?;
    Ok(Some(front_token(bytes, start, front)))
}

/// Returns the next token from `at` on if it is a number that is recognized at once: after at most one byte of white
/// space, and with few digits. `None` may come if there is a number too: call `next_pg_token` then.
#[inline(always)]
pub fn next_pg_number(source: &[u8], at: usize) -> Option<Token<'_, PgKind>>
    requires { at ≤ length source.now }
    ensures token { IfSome result (λ token. Follows source.now at (lexeme_of token)) }
    ensures number { IfSome result (λ token. token.kind ≡ Number) }
    ensures small { IfSome result (λ token. token.value ≤ most_number) }
    ensures progress { IfSome result (λ token. IsPartAfter source.now at token.span) }
{
    let start = blank_end(source, at);
    let bytes = tail(source, start);
    let front = plain_number(bytes)?;
    Some(front_token(bytes, start, front))
}

/// Returns the end of white space of at most one byte at `from`.
#[inline(always)]
fn blank_end(source: &[u8], from: usize) -> usize
    requires { from ≤ length source.now }
    ensures { IsGap source.now from result }
{
    if from == source.len() || !is_white(source[from]) {
        return from;
    }
    from + 1
}

/// Returns the end of the white space at `from`.
#[inline(always)]
fn gap_end(source: &[u8], from: usize) -> usize
    requires { from ≤ length source.now }
    ensures gap { IsGap source.now from result }
    ensures black { result < length source.now → is_white (slice_index source.now result) ≡ false }
{
    let mut end = from;
    while end < source.len() {
        if !is_white(source[end]) {
            return end;
        }
        end += 1;
    }
    end
}

/// The longest form that bytes begin with, as the token that it is.
#[derive(Clone, Copy, Debug, PartialEq, Eq)]
struct Form {
    kind: PgKind,
    value: u32,
    /// The number of its bytes.
    count: usize,
}

/// Returns the form that `bytes` begin with, which are at `place` of the text and do not begin with white space.
#[inline(always)]
fn first_form(bytes: &[u8], place: usize) -> Result<Form, TextFault>
    requires some { 0 < length bytes.now }
    requires black { is_white (slice_index bytes.now 0) ≡ false }
    ensures form { IfOk result (λ form. IsFirstForm bytes.now form.kind form.value form.count) }
    ensures fault { IfErr result (IsFaultOf bytes.now place) }
{
    let first = bytes[0];
    if first.is_ascii_digit() {
        first_number(bytes, place)
    } else if first == b',' {
        Ok(plain_form(PgKind::Comma, 1))
    } else if first == b';' {
        Ok(plain_form(PgKind::Semicolon, 1))
    } else if is_letter(first) {
        first_word(bytes, place)
    } else if first == b'"' {
        first_name(bytes, place)
    } else {
        Err(TextFault::Lex { at: place })
    }
}

/// Makes a form of `kind`, which has no value, with `count` bytes.
#[inline(always)]
fn plain_form(kind: PgKind, count: usize) -> Form
    ensures kind { result.kind ≡ kind }
    ensures value { result.value ≡ 0 }
    ensures count { result.count ≡ count }
{
    Form {
        kind,
        value: 0,
        count,
    }
}

/// Returns the number that `bytes` begin with, if it has few digits and another byte ends them. `None` may come for
/// such a number too.
#[inline(always)]
fn plain_number(bytes: &[u8]) -> Option<Form>
    ensures form { IfSome result (λ form. IsFirstForm bytes.now form.kind form.value form.count) }
    ensures number { IfSome result (λ form. form.kind ≡ Number) }
    ensures small { IfSome result (λ form. form.value ≤ most_number) }
{
    if bytes.len() < 2 || !bytes[0].is_ascii_digit() {
        return None;
    }
    if !bytes[1].is_ascii_digit() {
        // Most numbers have one digit, which needs no comparison.
        return Some(Form {
            kind: PgKind::Number,
            value: u32::from(bytes[0] - b'0'),
            count: 1,
        });
    }
    let (count, value) = ended_digits(bytes);
    if count == 0 || has_needless_zero(bytes, count) || value > MOST_NUMBER as u64 {
        return None;
    }
    Some(Form {
        kind: PgKind::Number,
        value: value as u32,
        count,
    })
}

/// Returns the number that `bytes` begin with. Their whole run of digits is one, or is refused.
#[inline(never)]
fn first_number(bytes: &[u8], place: usize) -> Result<Form, TextFault>
    requires some { 0 < length bytes.now }
    requires digit { is_digit (slice_index bytes.now 0) ≡ true }
    ensures form { IfOk result (λ form. IsFirstForm bytes.now form.kind form.value form.count) }
    ensures fault { IfErr result (IsFaultOf bytes.now place) }
{
    let (count, value) = front_digits(bytes);
    if has_needless_zero(bytes, count) || value > MOST_NUMBER as u64 {
        return Err(TextFault::Number { at: place });
    }
    Ok(Form {
        kind: PgKind::Number,
        value: value as u32,
        count,
    })
}

/// Returns the word that `bytes` begin with. The longest one is `parity` or `paritysol`, or is refused.
#[inline(never)]
fn first_word(bytes: &[u8], place: usize) -> Result<Form, TextFault>
    requires some { 0 < length bytes.now }
    requires letter { is_letter (slice_index bytes.now 0) ≡ true }
    ensures form { IfOk result (λ form. IsFirstForm bytes.now form.kind form.value form.count) }
    ensures fault { IfErr result (IsFaultOf bytes.now place) }
{
    let count = word_count(bytes);
    let word = &bytes[..count];
    if word == b"parity".as_slice() {
        Ok(plain_form(PgKind::Parity, count))
    } else if word == b"paritysol".as_slice() {
        Ok(plain_form(PgKind::ParitySol, count))
    } else {
        Err(TextFault::Lex { at: place })
    }
}

/// Returns the name that `bytes` begin with. It ends at the next quote, with only bytes of a name before that.
#[inline(never)]
fn first_name(bytes: &[u8], place: usize) -> Result<Form, TextFault>
    requires some { 0 < length bytes.now }
    requires quote { slice_index bytes.now 0 ≡ 34 }
    ensures form { IfOk result (λ form. IsFirstForm bytes.now form.kind form.value form.count) }
    ensures fault { IfErr result (IsFaultOf bytes.now place) }
{
    let close = 1 + name_count(tail(bytes, 1));
    if close < bytes.len() && bytes[close] == b'"' {
        Ok(plain_form(PgKind::Name, close + 1))
    } else {
        Err(TextFault::Lex { at: place })
    }
}

/// Makes the token of `form`, with which `bytes` at `place` of the text begin.
#[inline(always)]
fn front_token(bytes: &[u8], place: usize, form: Form) -> Token<'_, PgKind>
    requires within { form.count ≤ length bytes.now }
    requires room { place + length bytes.now < 2 ^ 64 }
    ensures { lexeme_of result ≡ lexeme_at place form.kind form.value (take form.count bytes.now) }
{
    Token {
        text: &bytes[..form.count],
        span: Span {
            start: place,
            end: place + form.count,
        },
        value: form.value,
        kind: form.kind,
    }
}
