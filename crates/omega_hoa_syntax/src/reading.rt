//! Automata read from tokens.

ghost use Rattle.std.specs.Prelude.{◌≡◌, IfErr, IfOk};
ghost use Rattle.omega_hoa_syntax.specs.Grammar.{BeginsAutomaton, ReadsAutomaton};
ghost use Rattle.omega_hoa_syntax.specs.Grammar.{ReadsNoOther, ReadsNoAutomaton};
ghost use Rattle.omega_hoa_expression.specs.Unread.{IsUnread};

use crate::body::StateSyntax;
use crate::header::ItemSyntax;
use crate::part::read_growing;
use crate::raw_automaton::RawAutomaton;
use crate::taking::{take_header, take_sign, take_word};
use omega_text::{HoaKind, Refusal, TokenSource};
use std::alloc::Global;

/// Reads the automaton that the tokens begin with, from `HOA:` to `--END--`, as it is written (HOA v1). Tokens after it
/// are left.
///
/// Refused with [TextFault::Syntax] if the tokens begin with no automaton, at the first token with which no automaton
/// goes on, else at the length of the text. One pass, linear time, without recursion.
pub fn read_raw<'a, S: TokenSource<'a, HoaKind>>(
    alloc: Global,
    source: &mut S,
) -> Result<RawAutomaton, Refusal>
    ensures ok { IfOk result (λ raw. ReadsAutomaton (S.left source.old) raw (S.left source.new)) }
    ensures only { IfOk result (λ raw. ReadsNoOther (S.left source.old) raw (S.left source.new)) }
    ensures err { IfErr result
        (IsUnread ReadsNoAutomaton BeginsAutomaton (S.left source.old) (S.length source.old)) }
    ensures length { S.length source.new ≡ S.length source.old }
{
    take_header(source, b"HOA")?;
    let version = take_word(alloc, source)?;
    let items = read_growing::<ItemSyntax, S>(alloc, source)?;
    take_sign(source, HoaKind::Body)?;
    let states = read_growing::<StateSyntax, S>(alloc, source)?;
    take_sign(source, HoaKind::End)?;
    Ok(RawAutomaton {
        version,
        items,
        states,
    })
}
