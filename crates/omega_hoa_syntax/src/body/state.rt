ghost use Rattle.std.specs.Prelude.{◌≡◌, IfSome};
ghost use Rattle.omega_hoa_syntax.specs.First.{FirstIs};
ghost use Rattle.omega_hoa_syntax.specs.private.steps.Reading.{EndsList, Finds, GivesRow, IsAny, IsKind};
ghost use Rattle.omega_hoa_syntax.specs.private.steps.Joining.{state_joins};
ghost use Rattle.omega_hoa_syntax.specs.private.steps.Beginnings.{state_begun, state_follows};
ghost use Rattle.omega_hoa_syntax.specs.Grammar.{IsRawState, optional_row, state_row, string_row};
ghost use Rattle.omega_hoa_syntax.specs.private.steps.Parts.{EndsState, is_header, is_string};

use crate::body::edge::read_edges;
use crate::body::guard::Guard;
use crate::body::sig::read_marks;
use crate::part::{Part, read_if};
use crate::raw_state::RawState;
use crate::single::Quoted;
use crate::state_name::StateName;
use crate::taking::{take_header, take_int};
use omega_text::{HoaKind, Refusal, TokenSource};
use std::alloc::Global;

/// A state with its edges.
pub(crate) struct StateSyntax;

impl<'a, S: TokenSource<'a, HoaKind>> Part<'a, S> for StateSyntax {
    type Value = RawState;

    ghost valid = { IsRawState };

    ghost written = { state_row };

    ghost first = { is_header };

    ghost next = { EndsState };

    fn begins(kind: HoaKind) -> bool {
        kind == HoaKind::HeaderName
    }

    fn read(alloc: Global, source: &mut S) -> Result<RawState, Refusal> {
        take_header(source, b"State")?;
        let label = read_if::<Guard, S>(alloc, source)?;
        let number = take_int(source)?;
        let name = read_name(alloc, source)?;
        let marks = read_marks(alloc, source)?;
        let edges = read_edges(alloc, source)?;
        Ok(RawState {
            label,
            number,
            name,
            marks,
            edges,
        })
    }

    ghost begun = { state_begun };

    ghost joins = { state_joins };

    ghost follows = { state_follows };
}

/// Reads the name of a state, if a string is next.
fn read_name<'a, S: TokenSource<'a, HoaKind>>(
    alloc: Global,
    source: &mut S,
) -> Result<StateName, Refusal>
    ensures gives { GivesRow (λ it. IfSome it IsAny) (optional_row string_row)
        (S.left source.old) (S.left source.new) result }
    ensures finds { Finds (λ it. IfSome it IsAny)
        (optional_row string_row) (FirstIs (EndsList is_string IsKind))
        (S.left source.old) (S.left source.new) (S.length source.old) result }
    ensures length { S.length source.new ≡ S.length source.old }
{
    let bytes = read_if::<Quoted, S>(alloc, source)?;
    match bytes {
        Some(bytes) => {
            let name = StateName::of(alloc, bytes)?;
            Ok(name)
        }
        None => Ok(StateName::absent()),
    }
}
