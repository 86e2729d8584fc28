ghost use Rattle.std.specs.Prelude.{◌≡◌, IfSome, refl};
ghost use Rattle.omega_hoa_syntax.specs.Grammar.{optional_row, sig_row};
ghost use Rattle.omega_hoa_syntax.specs.First.{FirstIs};
ghost use Rattle.omega_hoa_syntax.specs.private.steps.Parts.{is_brace};
ghost use Rattle.omega_hoa_syntax.specs.private.steps.Joining.{sig_joins};
ghost use Rattle.omega_hoa_syntax.specs.private.steps.Reading.{EndsList, Finds, GivesRow, IsAny, IsKind};

use crate::part::{Part, read_if, read_numbers};
use crate::single::Int;
use crate::taking::take_sign;
use omega_text::{HoaKind, Marks, Numbers, Refusal, TokenSource};
use std::alloc::Global;

/// The sets of a state or an edge, between braces.
struct Sig;

impl<'a, S: TokenSource<'a, HoaKind>> Part<'a, S> for Sig {
    type Value = Numbers;

    ghost valid = { IsAny };

    ghost written = { sig_row };

    ghost first = { is_brace };

    ghost next = { IsKind };

    fn begins(kind: HoaKind) -> bool {
        kind == HoaKind::OpenBrace
    }

    #[inline(always)]
    fn read(alloc: Global, source: &mut S) -> Result<Numbers, Refusal> {
        take_sign(source, HoaKind::OpenBrace)?;
        let marks = read_numbers::<Int, S>(alloc, source)?;
        take_sign(source, HoaKind::CloseBrace)?;
        Ok(marks)
    }

    ghost begun = { λ it others valid. refl };

    ghost joins = { sig_joins };

    ghost follows = { λ kind is. tt };
}

/// Reads the sets of a state or an edge, if braces are next.
#[inline(always)]
pub(crate) fn read_marks<'a, S: TokenSource<'a, HoaKind>>(
    alloc: Global,
    source: &mut S,
) -> Result<Marks, Refusal>
    ensures gives { GivesRow (λ it. IfSome it IsAny) (optional_row sig_row)
        (S.left source.old) (S.left source.new) result }
    ensures finds { Finds (λ it. IfSome it IsAny)
        (optional_row sig_row) (FirstIs (EndsList is_brace IsKind))
        (S.left source.old) (S.left source.new) (S.length source.old) result }
    ensures length { S.length source.new ≡ S.length source.old }
{
    let sets = read_if::<Sig, S>(alloc, source)?;
    Ok(match sets {
        Some(sets) => Marks::of(sets),
        None => Marks::absent(),
    })
}
