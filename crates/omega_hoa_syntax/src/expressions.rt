//! The expressions in a text of an automaton.

ghost use Rattle.std.specs.Prelude.{◌≡◌};
ghost use Rattle.omega_hoa_syntax.specs.private.steps.Rows.{formula_row, expression_row};
ghost use Rattle.omega_hoa_syntax.specs.private.steps.Reading.{Anything, Finds, GivesRow, IsAny};

use omega_hoa_acceptance::{RawAcc, formulas_are_one, read_raw_acc};
use omega_hoa_label::RawLabel;
use omega_hoa_label_text::{labels_are_one, read_raw_label};
use omega_text::{HoaKind, Refusal, TokenSource};
use std::alloc::Global;

/// Reads a label-expr.
pub(crate) fn label_expression<'a, S: TokenSource<'a, HoaKind>>(
    alloc: Global,
    source: &mut S,
) -> Result<RawLabel, Refusal>
    ensures gives { GivesRow IsAny expression_row (S.left source.old) (S.left source.new) result }
    ensures finds { Finds IsAny expression_row Anything
        (S.left source.old) (S.left source.new) (S.length source.old) result }
    ensures length { S.length source.new ≡ S.length source.old }
{
    labels_are_one();
    read_raw_label(alloc, source)
}

/// Reads an acc-expr.
pub(crate) fn acceptance_expression<'a, S: TokenSource<'a, HoaKind>>(
    alloc: Global,
    source: &mut S,
) -> Result<RawAcc, Refusal>
    ensures gives { GivesRow IsAny formula_row (S.left source.old) (S.left source.new) result }
    ensures finds { Finds IsAny formula_row Anything
        (S.left source.old) (S.left source.new) (S.length source.old) result }
    ensures length { S.length source.new ≡ S.length source.old }
{
    formulas_are_one();
    read_raw_acc(alloc, source)
}
