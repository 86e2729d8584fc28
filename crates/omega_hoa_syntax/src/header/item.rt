ghost use Rattle.omega_hoa_syntax.specs.private.steps.Joining.{item_joins};
ghost use Rattle.omega_hoa_syntax.specs.private.steps.Beginnings.{item_begun, item_follows};
ghost use Rattle.omega_hoa_syntax.specs.Grammar.{IsRawItem, item_row};
ghost use Rattle.omega_hoa_syntax.specs.private.steps.Parts.{EndsItem, is_header};

use crate::header::content::content;
use crate::part::Part;
use crate::raw_item::RawItem;
use omega_text::{HoaKind, Refusal, TokenSource};
use std::alloc::Global;

/// An item of a header.
pub(crate) struct ItemSyntax;

impl<'a, S: TokenSource<'a, HoaKind>> Part<'a, S> for ItemSyntax {
    type Value = RawItem;

    ghost valid = { IsRawItem };

    ghost written = { item_row };

    ghost first = { is_header };

    ghost next = { EndsItem };

    fn begins(kind: HoaKind) -> bool {
        kind == HoaKind::HeaderName
    }

    fn read(alloc: Global, source: &mut S) -> Result<RawItem, Refusal> {
        content(alloc, source)
    }

    ghost begun = { item_begun };

    ghost joins = { item_joins };

    ghost follows = { item_follows };
}
