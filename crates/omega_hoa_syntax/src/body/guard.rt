ghost use Rattle.std.specs.Prelude.{refl};
ghost use Rattle.omega_hoa_syntax.specs.Grammar.{label_row};
ghost use Rattle.omega_hoa_syntax.specs.private.steps.Parts.{is_bracket};
ghost use Rattle.omega_hoa_syntax.specs.private.steps.Reading.{IsAny, IsKind};

use crate::expressions::label_expression;
use crate::part::Part;
use crate::taking::take_sign;
use omega_hoa_label::RawLabel;
use omega_text::{HoaKind, Refusal, TokenSource};
use std::alloc::Global;

/// The label of a state or an edge, between brackets.
pub(crate) struct Guard;

impl<'a, S: TokenSource<'a, HoaKind>> Part<'a, S> for Guard {
    type Value = RawLabel;

    ghost valid = { IsAny };

    ghost written = { label_row };

    ghost first = { is_bracket };

    ghost next = { IsKind };

    fn begins(kind: HoaKind) -> bool {
        kind == HoaKind::OpenBracket
    }

    #[inline(always)]
    fn read(alloc: Global, source: &mut S) -> Result<RawLabel, Refusal> {
        take_sign(source, HoaKind::OpenBracket)?;
        let label = label_expression(alloc, source)?;
        take_sign(source, HoaKind::CloseBracket)?;
        Ok(label)
    }

    ghost begun = { λ it others valid. refl };

    ghost joins = { λ it others. refl };

    ghost follows = { λ kind is. tt };
}
