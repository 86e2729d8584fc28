//! Acceptance formulas read from tokens.

ghost use Rattle.std.specs.Prelude.{◌≡◌, ◌<◌, [], List, length, IfErr, IfOk, MatchBool, OnOk};
ghost use Rattle.omega_hoa_acceptance.specs.Meaning.{IsUnreadAcc, ReadsMeant};
ghost use Rattle.omega_hoa_acceptance.specs.Reading.{BeginsAcc, ReadsAcc, ReadsNoAcc};
ghost use Rattle.omega_hoa_expression.specs.Symbols.{conjunctive, unary};
ghost use Rattle.omega_hoa_expression.specs.Unread.{IsUnread};
ghost use Rattle.omega_hoa_acceptance.specs.private.layout.Building.{HasIn, IsWhole, WantsIn};
ghost use Rattle.omega_hoa_acceptance.specs.private.layout.States.{BeginsSet, IsStuck, PassesSet, named};
ghost use Rattle.omega_text.specs.Lexeme.{Lexeme};
ghost use Rattle.omega_text.specs.declared.hoa.kind.HoaKind.{HoaKind as Kind};

use crate::formula::Acc;
use crate::raw::{RawAcc, RawAccNode};
use crate::unfinished::UnfinishedAcc;
use omega_hoa_expression::{Pending, counted_deeper, is_passed, number, pass};
use omega_text::{HoaKind, Refusal, TextFault, TokenSource};
use std::alloc::Global;

/// Reads an acceptance formula as it is written (HOA v1, acceptance): the one prefix of the tokens that is a formula
/// and has neither `&` nor `|` after it. Linear time, without recursion.
///
/// Refused with [TextFault::Syntax] if there is none, at the first token with which no formula goes on, else at the
/// length of the text.
pub fn read_raw_acc<'a, S: TokenSource<'a, HoaKind>>(
    alloc: Global,
    source: &mut S,
) -> Result<RawAcc, Refusal>
    ensures ok { IfOk result (λ formula. ReadsAcc (S.left source.old) formula (S.left source.new)) }
    ensures err { IfErr result
        (IsUnread ReadsNoAcc BeginsAcc (S.left source.old) (S.length source.old)) }
    ensures length { S.length source.new ≡ S.length source.old }
{
    let mut unfinished = UnfinishedAcc::new(alloc);
    operand(&mut unfinished, source)?;
    while read_infix(&mut unfinished, source)? {}
    Ok(RawAcc::of_nodes(unfinished.nodes, unfinished.names, unfinished.depth))
}

/// Reads an acceptance formula as `read_raw_acc` does, and returns its meaning.
///
/// Refused with [TextFault::Syntax] as there, else with [AutomatonFault::AcceptanceAtom] if an atom is neither
/// `Fin` nor `Inf`, else with [AutomatonFault::TooDeep] if it is over 256 deep. After the last two only the tokens
/// after it are left.
pub fn read_acc<'a, S: TokenSource<'a, HoaKind>>(
    alloc: Global,
    source: &mut S,
) -> Result<Acc, Refusal>
    ensures ok { IfOk result (λ formula. ReadsMeant (S.left source.old) formula (S.left source.new)) }
    ensures err { IfErr result
        (IsUnreadAcc (S.left source.old) (S.left source.new) (S.length source.old)) }
    ensures length { S.length source.new ≡ S.length source.old }
{
    let raw = read_raw_acc(alloc, source)?;
    raw.formula(alloc)
}

/// Reads a unary part and its prefixes, and joins it by `&` to the left part that is pending.
fn operand<'a, S: TokenSource<'a, HoaKind>>(
    unfinished: &mut UnfinishedAcc,
    source: &mut S,
) -> Result<(), Refusal>
    ensures ok { OnOk result
        ((whole : List (Lexeme Kind)) → WantsIn whole (S.left source.old) unfinished.old →
        HasIn conjunctive whole (S.left source.new) unfinished.new) }
    ensures err { IfErr result (λ refusal. (whole : List (Lexeme Kind)) →
        WantsIn whole (S.left source.old) unfinished.old
        → IsUnread ReadsNoAcc BeginsAcc whole (S.length source.old) refusal) }
    ensures less { OnOk result (length (S.left source.new) < length (S.left source.old)) }
    ensures length { S.length source.new ≡ S.length source.old }
{
    while read_prefix(unfinished, source)? {}
    unfinished.bind_tightly()
}

/// Passes the next token when a part is wanted. Returns whether one is still wanted.
fn read_prefix<'a, S: TokenSource<'a, HoaKind>>(
    unfinished: &mut UnfinishedAcc,
    source: &mut S,
) -> Result<bool, Refusal>
    ensures wants { IfOk result
        (λ more. (whole : List (Lexeme Kind)) → WantsIn whole (S.left source.old) unfinished.old
        → MatchBool more (WantsIn whole (S.left source.new) unfinished.new)
        (HasIn unary whole (S.left source.new) unfinished.new)) }
    ensures err { IfErr result (λ refusal. (whole : List (Lexeme Kind)) →
        WantsIn whole (S.left source.old) unfinished.old
        → IsUnread ReadsNoAcc BeginsAcc whole (S.length source.old) refusal) }
    ensures less { OnOk result (length (S.left source.new) < length (S.left source.old)) }
    ensures length { S.length source.new ≡ S.length source.old }
{
    let at = source.place();
    let Some(token) = source.take() else {
        return Err(Refusal::Text(TextFault::Syntax { at }));
    };
    match token.kind {
        HoaKind::OpenParenthesis => {
            unfinished.pending.push(Pending::Open)?;
            return Ok(true);
        }
        HoaKind::True => unfinished.nodes.push(RawAccNode::Constant(true))?,
        HoaKind::False => unfinished.nodes.push(RawAccNode::Constant(false))?,
        HoaKind::Identifier => {
            let (negated, at_set) = set(source)?;
            unfinished
                .nodes
                .push(RawAccNode::Atom(token.text.len(), negated, at_set))?;
            unfinished.names.extend_from_slice(token.text)?;
        }
        _ => return Err(Refusal::Text(TextFault::Syntax { at })),
    }
    unfinished.depth = 1;
    Ok(false)
}

/// Passes a token after a part, joining the part that it ends. Returns whether more may follow; if not, the whole
/// formula is read.
fn read_infix<'a, S: TokenSource<'a, HoaKind>>(
    unfinished: &mut UnfinishedAcc,
    source: &mut S,
) -> Result<bool, Refusal>
    ensures more { IfOk result (λ more. (whole : List (Lexeme Kind)) →
        HasIn conjunctive whole (S.left source.old) unfinished.old
        → MatchBool more (HasIn conjunctive whole (S.left source.new) unfinished.new)
        (IsWhole whole (S.left source.new) unfinished.new)) }
    ensures err { IfErr result (λ refusal. (whole : List (Lexeme Kind)) →
        HasIn conjunctive whole (S.left source.old) unfinished.old
        → IsUnread ReadsNoAcc BeginsAcc whole (S.length source.old) refusal) }
    ensures less { IfOk result
        (λ more. MatchBool more (length (S.left source.new) < length (S.left source.old)) (Unit {0})) }
    ensures length { S.length source.new ≡ S.length source.old }
{
    if is_passed(source, HoaKind::And) {
        unfinished.pending.push(Pending::And(unfinished.depth))?;
        operand(unfinished, source)?;
        return Ok(true);
    }
    unfinished.bind_loosely()?;
    if is_passed(source, HoaKind::Or) {
        unfinished.pending.push(Pending::Or(unfinished.depth))?;
        operand(unfinished, source)?;
        return Ok(true);
    }
    let Some(_) = unfinished.pending.pop() else {
        return Ok(false);
    };
    if !is_passed(source, HoaKind::CloseParenthesis) {
        let at = source.place();
        return Err(Refusal::Text(TextFault::Syntax { at }));
    }
    unfinished.nodes.push(RawAccNode::Group)?;
    unfinished.depth = counted_deeper(unfinished.depth);
    unfinished.bind_tightly()?;
    Ok(true)
}

/// Passes the set of an atom in parentheses. Returns whether `!` precedes it, and the set.
fn set<'a, S: TokenSource<'a, HoaKind>>(source: &mut S) -> Result<(bool, u32), Refusal>
    ensures ok { IfOk result (λ set. PassesSet set.0 set.1 (S.left source.old) (S.left source.new)) }
    ensures err { IfErr result
        (IsUnread (IsStuck named) (BeginsSet []) (S.left source.old) (S.length source.old)) }
    ensures less { OnOk result (length (S.left source.new) < length (S.left source.old)) }
    ensures length { S.length source.new ≡ S.length source.old }
{
    pass(source, HoaKind::OpenParenthesis)?;
    let negated = is_passed(source, HoaKind::Not);
    let set = number(source)?;
    pass(source, HoaKind::CloseParenthesis)?;
    Ok((negated, set))
}
