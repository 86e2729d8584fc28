//! Labels read from tokens.

ghost use Rattle.std.specs.Prelude.{◌≡◌, ◌<◌, ◌≤◌, List, length, IfErr, IfOk, MatchBool, OnOk};
ghost use Rattle.omega_hoa_label_text.specs.Reading.{BeginsLabel, IsUnreadLabel, Reads, ReadsNoLabel};
ghost use Rattle.omega_hoa_expression.specs.Symbols.{conjunctive, unary};
ghost use Rattle.omega_hoa_expression.specs.Unread.{IsUnread};
ghost use Rattle.omega_hoa_expression.specs.Limits.{most_depth};
ghost use Rattle.omega_hoa_label.specs.Raw.{raw_depth};
ghost use Rattle.omega_hoa_label_text.specs.private.Building.{HasIn, IsWhole, WantsIn};
ghost use Rattle.omega_hoa_expression.specs.Passing.{PassesOne};
ghost use Rattle.omega_text.specs.Lexeme.{Lexeme};
ghost use Rattle.omega_text.specs.declared.hoa.kind.HoaKind.{HoaKind as Kind};
ghost use Rattle.omega_text.specs.declared.hoa.kind.HoaKind.TheVariants as kinds;

use crate::unfinished::Unfinished;
use omega_hoa_expression::{Pending, counted_deeper, is_passed, passed_number};
use omega_hoa_label::{LabelNode, RawLabel, name_length};
use omega_text::{AutomatonFault, HoaKind, Refusal, TextFault, TokenSource};
use std::alloc::Global;

/// Reads a label as it is written (HOA v1, label expressions): the one prefix of the tokens that is a label and has
/// neither `&` nor `|` after it. Linear time, without recursion.
///
/// Refused with [TextFault::Syntax] if there is none, at the first token with which no label goes on, else at the
/// length of the text.
pub fn read_raw_label<'a, S: TokenSource<'a, HoaKind>>(
    alloc: Global,
    source: &mut S,
) -> Result<RawLabel, Refusal>
    ensures ok { IfOk result (λ label. Reads (S.left source.old) label (S.left source.new)) }
    ensures err { IfErr result
        (IsUnread ReadsNoLabel BeginsLabel (S.left source.old) (S.length source.old)) }
    ensures length { S.length source.new ≡ S.length source.old }
{
    let mut unfinished = Unfinished::new(alloc);
    match read_whole(&mut unfinished, source) {
        Ok(()) => RawLabel::from_postfix(
            alloc,
            unfinished.nodes,
            unfinished.names,
            unfinished.depth,
        ),
        Err(refusal) => Err(refusal),
    }
}

/// Reads a label as `read_raw_label` does. Refused with [TextFault::Syntax] as there, else with
/// [AutomatonFault::TooDeep] if it is over 256 deep, an alias having depth 1. After the latter only the tokens after it
/// are left.
pub fn read_label<'a, S: TokenSource<'a, HoaKind>>(
    alloc: Global,
    source: &mut S,
) -> Result<RawLabel, Refusal>
    ensures ok { IfOk result (λ label. Reads (S.left source.old) label (S.left source.new)) }
    ensures shallow { IfOk result (λ label. raw_depth label ≤ most_depth) }
    ensures err { IfErr result
        (IsUnreadLabel (S.left source.old) (S.left source.new) (S.length source.old)) }
    ensures length { S.length source.new ≡ S.length source.old }
{
    let label = read_raw_label(alloc, source)?;
    if label.is_too_deep() {
        return Err(Refusal::Automaton(AutomatonFault::TooDeep));
    }
    Ok(label)
}

/// Reads parts and operators until the whole label is read.
#[inline(always)]
fn read_whole<'a, S: TokenSource<'a, HoaKind>>(
    unfinished: &mut Unfinished,
    source: &mut S,
) -> Result<(), Refusal>
    ensures ok { OnOk result
        ((whole : List (Lexeme Kind)) → WantsIn whole (S.left source.old) unfinished.old →
        IsWhole whole (S.left source.new) unfinished.new) }
    ensures err { IfErr result (λ refusal. (whole : List (Lexeme Kind)) →
        WantsIn whole (S.left source.old) unfinished.old
        → IsUnread ReadsNoLabel BeginsLabel whole (S.length source.old) refusal) }
    ensures length { S.length source.new ≡ S.length source.old }
{
    operand(unfinished, source)?;
    while read_infix(unfinished, source)? {}
    Ok(())
}

/// Reads a unary part and its prefixes, and joins it by `&` to the left part that is pending.
#[inline(always)]
fn operand<'a, S: TokenSource<'a, HoaKind>>(
    unfinished: &mut Unfinished,
    source: &mut S,
) -> Result<(), Refusal>
    ensures ok { OnOk result
        ((whole : List (Lexeme Kind)) → WantsIn whole (S.left source.old) unfinished.old →
        HasIn conjunctive whole (S.left source.new) unfinished.new) }
    ensures err { IfErr result (λ refusal. (whole : List (Lexeme Kind)) →
        WantsIn whole (S.left source.old) unfinished.old
        → IsUnread ReadsNoLabel BeginsLabel whole (S.length source.old) refusal) }
    ensures less { OnOk result (length (S.left source.new) < length (S.left source.old)) }
    ensures length { S.length source.new ≡ S.length source.old }
{
    while read_prefix(unfinished, source)? {}
    unfinished.bind_tightly()
}

/// Passes the next token when a part is wanted. Returns whether one is still wanted.
#[inline(always)]
fn read_prefix<'a, S: TokenSource<'a, HoaKind>>(
    unfinished: &mut Unfinished,
    source: &mut S,
) -> Result<bool, Refusal>
    ensures wants { IfOk result
        (λ more. (whole : List (Lexeme Kind)) → WantsIn whole (S.left source.old) unfinished.old
        → MatchBool more (WantsIn whole (S.left source.new) unfinished.new)
        (HasIn unary whole (S.left source.new) unfinished.new)) }
    ensures err { IfErr result (λ refusal. (whole : List (Lexeme Kind)) →
        WantsIn whole (S.left source.old) unfinished.old
        → IsUnread ReadsNoLabel BeginsLabel whole (S.length source.old) refusal) }
    ensures less { OnOk result (length (S.left source.new) < length (S.left source.old)) }
    ensures length { S.length source.new ≡ S.length source.old }
{
    let at = source.place();
    let Some(token) = source.take() else {
        return Err(Refusal::Text(TextFault::Syntax { at }));
    };
    match token.kind {
        HoaKind::Not => {
            unfinished.pending.push(Pending::Not)?;
            return Ok(true);
        }
        HoaKind::OpenParenthesis => {
            unfinished.pending.push(Pending::Open)?;
            return Ok(true);
        }
        HoaKind::True => unfinished.nodes.push(LabelNode::Constant(true))?,
        HoaKind::False => unfinished.nodes.push(LabelNode::Constant(false))?,
        HoaKind::Int => unfinished.nodes.push(LabelNode::Proposition(token.value))?,
        HoaKind::AliasName => {
            let count = name_length(token.text)?;
            unfinished.nodes.push(LabelNode::Alias(count))?;
            unfinished.names.extend_from_slice(token.text)?;
        }
        _ => return Err(Refusal::Text(TextFault::Syntax { at })),
    }
    unfinished.depth = 1;
    Ok(false)
}

/// Passes a token after a part, joining the part that it ends. Returns whether more may follow; if not, the whole label
/// is read.
fn read_infix<'a, S: TokenSource<'a, HoaKind>>(
    unfinished: &mut Unfinished,
    source: &mut S,
) -> Result<bool, Refusal>
    ensures more { IfOk result (λ more. (whole : List (Lexeme Kind)) →
        HasIn conjunctive whole (S.left source.old) unfinished.old
        → MatchBool more (HasIn conjunctive whole (S.left source.new) unfinished.new)
        (IsWhole whole (S.left source.new) unfinished.new)) }
    ensures err { IfErr result (λ refusal. (whole : List (Lexeme Kind)) →
        HasIn conjunctive whole (S.left source.old) unfinished.old
        → IsUnread ReadsNoLabel BeginsLabel whole (S.length source.old) refusal) }
    ensures less { IfOk result
        (λ more. MatchBool more (length (S.left source.new) < length (S.left source.old)) (Unit {0})) }
    ensures length { S.length source.new ≡ S.length source.old }
{
    if is_passed(source, HoaKind::And) {
        conjunct(unfinished, source)?;
        return Ok(true);
    }
    unfinished.bind_loosely()?;
    if is_passed(source, HoaKind::Or) {
        unfinished.pending.push(Pending::Or(unfinished.depth))?;
        operand(unfinished, source)?;
        return Ok(true);
    }
    let Some(_) = unfinished.pending.pop() else {
        return Ok(false);
    };
    if !is_passed(source, HoaKind::CloseParenthesis) {
        let at = source.place();
        return Err(Refusal::Text(TextFault::Syntax { at }));
    }
    unfinished.nodes.push(LabelNode::Group)?;
    unfinished.depth = counted_deeper(unfinished.depth);
    unfinished.bind_tightly()?;
    Ok(true)
}

/// Reads the part after an `&`, and joins it. For a proposition, or one after a `!`, as most parts are, nothing becomes
/// pending.
#[inline(always)]
fn conjunct<'a, S: TokenSource<'a, HoaKind>>(
    unfinished: &mut Unfinished,
    source: &mut S,
) -> Result<(), Refusal>
    ensures ok { OnOk result ((whole : List (Lexeme Kind)) (before : List (Lexeme Kind)) →
        PassesOne kinds.And before (S.left source.old) → HasIn conjunctive whole before unfinished.old
        → HasIn conjunctive whole (S.left source.new) unfinished.new) }
    ensures err { IfErr result (λ refusal. (whole : List (Lexeme Kind)) (before : List (Lexeme Kind)) →
        PassesOne kinds.And before (S.left source.old) → HasIn conjunctive whole before unfinished.old →
        IsUnread ReadsNoLabel BeginsLabel whole (S.length source.old) refusal) }
    ensures less { OnOk result (length (S.left source.new) < length (S.left source.old)) }
    ensures length { S.length source.new ≡ S.length source.old }
{
    let negated = is_passed(source, HoaKind::Not);
    if let Some(number) = passed_number(source) {
        unfinished.conjoin_literal(negated, number)?;
        return Ok(());
    }
    unfinished.wait(negated)?;
    operand(unfinished, source)?;
    Ok(())
}
