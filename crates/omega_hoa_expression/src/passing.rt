//! Tokens passed one by one.

ghost use Rattle.std.specs.Prelude.{◌≡◌, IfErr, IfOk, MatchBool, MatchOption, OnOk};
ghost use Rattle.omega_hoa_expression.specs.Passing.{IsMissing, NextIsNot, PassesNumber, PassesOne};
ghost use Rattle.omega_text.specs.declared.hoa.kind.HoaKind.TheVariants as kinds;

use omega_text::{HoaKind, Refusal, TextFault, TokenSource};

/// Passes the next token if it is of `kind`. Returns whether it is.
pub fn is_passed<'a, S: TokenSource<'a, HoaKind>>(source: &mut S, kind: HoaKind) -> bool
    ensures passed { MatchBool result (PassesOne kind (S.left source.old) (S.left source.new))
        (S.left source.new ≡ S.left source.old) }
    ensures other { MatchBool result (Unit {0}) (NextIsNot kind (S.left source.old)) }
    ensures length { S.length source.new ≡ S.length source.old }
{
    match source.look() {
        Some(token) => {
            if token.kind == kind {
                source.take();
                return true;
            }
            false
        }
        None => false,
    }
}

/// Passes a token of `kind`. Refused with [TextFault::Syntax] at the place of the next token if it is of another kind.
pub fn pass<'a, S: TokenSource<'a, HoaKind>>(source: &mut S, kind: HoaKind) -> Result<(), Refusal>
    ensures ok { OnOk result (PassesOne kind (S.left source.old) (S.left source.new)) }
    ensures err { IfErr result (IsMissing kind (S.left source.old) (S.length source.old)) }
    ensures length { S.length source.new ≡ S.length source.old }
{
    if is_passed(source, kind) {
        return Ok(());
    }
    let at = source.place();
    Err(Refusal::Text(TextFault::Syntax { at }))
}

/// Passes the next token if it is a number, and returns that number.
pub fn passed_number<'a, S: TokenSource<'a, HoaKind>>(source: &mut S) -> Option<u32>
    ensures passed { MatchOption result (S.left source.new ≡ S.left source.old)
        (λ value. PassesNumber value (S.left source.old) (S.left source.new)) }
    ensures length { S.length source.new ≡ S.length source.old }
{
    match source.look() {
        Some(token) => {
            if token.kind == HoaKind::Int {
                source.take();
                return Some(token.value);
            }
            None
        }
        None => None,
    }
}

/// Passes a number. Refused with [TextFault::Syntax] at the place of the next token if it is no number.
pub fn number<'a, S: TokenSource<'a, HoaKind>>(source: &mut S) -> Result<u32, Refusal>
    ensures ok { IfOk result (λ value. PassesNumber value (S.left source.old) (S.left source.new)) }
    ensures err { IfErr result (IsMissing kinds.Int (S.left source.old) (S.length source.old)) }
    ensures length { S.length source.new ≡ S.length source.old }
{
    let at = source.place();
    if let Some(token) = source.take()
        && token.kind == HoaKind::Int
    {
        return Ok(token.value);
    }
    Err(Refusal::Text(TextFault::Syntax { at }))
}
