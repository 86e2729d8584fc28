ghost use Rattle.std.specs.Prelude.{◌≡◌};
ghost use Rattle.std.specs.List.{AllByRecursion};
ghost use Rattle.omega_hoa_syntax.specs.First.{FirstIs};
ghost use Rattle.omega_hoa_syntax.specs.private.steps.Reading.{EndsList, Finds, GivesRow};
ghost use Rattle.omega_hoa_syntax.specs.private.steps.Joining.{edge_joins};
ghost use Rattle.omega_hoa_syntax.specs.private.steps.Beginnings.{edge_begun, edge_follows};
ghost use Rattle.omega_hoa_syntax.specs.Grammar.{IsRawEdge, each, edge_row};
ghost use Rattle.omega_hoa_syntax.specs.private.steps.Parts.{EndsEdge, is_edge};

use crate::body::guard::Guard;
use crate::body::sig::read_marks;
use crate::conj::conj;
use crate::part::{Part, read_if, read_raw_edges};
use crate::raw_edge::RawEdge;
use crate::raw_edges::RawEdges;
use omega_text::{HoaKind, Refusal, TokenSource};
use std::alloc::Global;

/// An edge.
struct EdgeSyntax;

impl<'a, S: TokenSource<'a, HoaKind>> Part<'a, S> for EdgeSyntax {
    type Value = RawEdge;

    ghost valid = { IsRawEdge };

    ghost written = { edge_row };

    ghost first = { is_edge };

    ghost next = { EndsEdge };

    fn begins(kind: HoaKind) -> bool {
        matches!(kind, HoaKind::OpenBracket | HoaKind::Int)
    }

    #[inline(always)]
    fn read(alloc: Global, source: &mut S) -> Result<RawEdge, Refusal> {
        let label = read_if::<Guard, S>(alloc, source)?;
        let targets = conj(alloc, source)?;
        let marks = read_marks(alloc, source)?;
        Ok(RawEdge {
            label,
            targets,
            marks,
        })
    }

    ghost begun = { edge_begun };

    ghost joins = { edge_joins };

    ghost follows = { edge_follows };
}

/// Reads edges as long as the next token begins one, into as much memory as they need.
#[inline(always)]
pub(crate) fn read_edges<'a, S: TokenSource<'a, HoaKind>>(
    alloc: Global,
    source: &mut S,
) -> Result<RawEdges, Refusal>
    ensures gives { GivesRow (AllByRecursion IsRawEdge) (each edge_row) (S.left source.old)
        (S.left source.new) result }
    ensures finds { Finds
        (AllByRecursion IsRawEdge) (each edge_row) (FirstIs (EndsList is_edge EndsEdge))
        (S.left source.old) (S.left source.new) (S.length source.old) result }
    ensures length { S.length source.new ≡ S.length source.old }
{
    let edges = read_raw_edges::<EdgeSyntax, S>(alloc, source)?;
    let edges = edges.fitted_edges(alloc)?;
    Ok(edges)
}
