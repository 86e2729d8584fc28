ghost use Rattle.std.specs.Prelude.{◌≡◌, ◌∷◌, IfErr, IfOk, refl};
ghost use Rattle.omega_text.specs.Cases.{IsMemory};
ghost use Rattle.omega_hoa_syntax.specs.Grammar.{IsConj, conj_row, joined_row};
ghost use Rattle.omega_hoa_syntax.specs.private.steps.Parts.{EndsConj, is_and};
ghost use Rattle.omega_hoa_syntax.specs.First.{FirstIs};
ghost use Rattle.omega_hoa_syntax.specs.private.steps.Reading.{Finds, GivesRow, IsAny, IsKind};

use crate::part::{Part, read_numbers};
use crate::taking::{take_int, take_sign};
use omega_text::{HoaKind, Numbers, Refusal, TokenSource};
use std::alloc::Global;

/// A further state of a conj, after `&`.
struct FurtherState;

impl<'a, S: TokenSource<'a, HoaKind>> Part<'a, S> for FurtherState {
    type Value = u32;

    ghost valid = { IsAny };

    ghost written = { joined_row };

    ghost first = { is_and };

    ghost next = { IsKind };

    fn begins(kind: HoaKind) -> bool {
        kind == HoaKind::And
    }

    fn read(_alloc: Global, source: &mut S) -> Result<u32, Refusal> {
        take_sign(source, HoaKind::And)?;
        let state = take_int(source)?;
        Ok(state)
    }

    ghost begun = { λ it others valid. refl };

    ghost joins = { λ it others. refl };

    ghost follows = { λ kind is. tt };
}

/// Reads a conj: at least one state, joined by `&`.
#[inline(always)]
pub(crate) fn conj<'a, S: TokenSource<'a, HoaKind>>(
    alloc: Global,
    source: &mut S,
) -> Result<Numbers, Refusal>
    ensures gives { GivesRow IsConj conj_row (S.left source.old) (S.left source.new) result }
    ensures finds { Finds IsConj conj_row (FirstIs EndsConj)
        (S.left source.old) (S.left source.new) (S.length source.old) result }
    ensures length { S.length source.new ≡ S.length source.old }
{
    let first = take_int(source)?;
    let others = read_numbers::<FurtherState, S>(alloc, source)?;
    let states = with_first(alloc, first, others)?;
    Ok(states)
}

/// Puts `first` before `others`.
#[inline(always)]
fn with_first(alloc: Global, first: u32, others: Numbers) -> Result<Numbers, Refusal>
    ensures ok { IfOk result (λ numbers. numbers ≡ first ∷ others) }
    ensures err { IfErr result IsMemory }
{
    let mut numbers = Numbers::one(first);
    let rest = others.as_slice();
    for other in rest {
        numbers.push(alloc, *other)?;
    }
    Ok(numbers)
}
