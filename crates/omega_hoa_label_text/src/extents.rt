ghost use Rattle.std.specs.Prelude.{◌≡◌, ◌+◌, ◌∷◌, [], min, option_map, IfErr, OnOk};
ghost use Rattle.omega_text.specs.Cases.{IsMemory};
ghost use Rattle.omega_hoa_expression.specs.Limits.{past_size};
ghost use Rattle.omega_hoa_label_text.specs.private.Extents.{atom_extent, both_extents, deeper_extent};
ghost use Rattle.omega_hoa_label_text.specs.private.Extents.{extents_below, negated_extent, top_extent};

use omega_hoa_expression::{PAST_DEPTH, PAST_SIZE};
use omega_text::Refusal;
use smallvec::SmallVec;
use std::alloc::Global;
use std::marker::Model;

/// The depth of a label, from 1, and the number of its tree nodes. Each is counted no further than one past its limit.
#[derive(Clone, Copy)]
pub struct Extent {
    pub depth: u32,
    pub size: u32,
}

/// Returns an atom's extent.
pub(crate) fn atom() -> Option<Extent>
    ensures { result ≡ atom_extent }
{
    Some(Extent { depth: 1, size: 1 })
}

/// Returns the extent of a label without aliases, from its depth up to just past the limit and its number of atoms and
/// operators.
pub(crate) fn extent_without_aliases(depth: u32, size: usize) -> Extent
    ensures depth { result.depth ≡ depth }
    ensures size { result.size ≡ min size past_size }
{
    Extent {
        depth,
        size: size.min(PAST_SIZE as usize) as u32,
    }
}

/// Returns the extent of `part` in parentheses.
pub(crate) fn in_parentheses(part: Option<Extent>) -> Option<Extent>
    ensures { result ≡ option_map deeper_extent part }
{
    match part {
        Some(part) => Some(Extent {
            depth: one_more(part.depth, PAST_DEPTH),
            size: part.size,
        }),
        None => None,
    }
}

/// Returns the extent of `part` after `!`.
pub(crate) fn extent_after_not(part: Option<Extent>) -> Option<Extent>
    ensures { result ≡ option_map negated_extent part }
{
    match part {
        Some(part) => Some(Extent {
            depth: one_more(part.depth, PAST_DEPTH),
            size: one_more(part.size, PAST_SIZE),
        }),
        None => None,
    }
}

/// Returns the extent of two parts and their operator.
pub(crate) fn extent_of_operands(left: Option<Extent>, right: Option<Extent>) -> Option<Extent>
    ensures { result ≡ both_extents left right }
{
    match (left, right) {
        (Some(left), Some(right)) => Some(Extent {
            depth: one_more(left.depth.max(right.depth), PAST_DEPTH),
            size: one_more(left.size.saturating_add(right.size), PAST_SIZE),
        }),
        _ => None,
    }
}

/// Returns `count` plus one, but at most `past`.
fn one_more(count: u32, past: u32) -> u32
    ensures { result ≡ min (count + 1) past }
{
    if count < past { count + 1 } else { past }
}

/// A stack of extents, which are none if an alias is undefined. Up to 16 of them take no memory.
#[derive(Drop)]
pub(crate) struct Extents {
    items: SmallVec<Option<Extent>, 16>,
}

impl Model for Extents {
    ghost use Rattle.std.specs.Prelude.{List, Option, reverse};
    ghost use Rattle.omega_hoa_label_text.specs.declared.extents.Extent.{Extent};

    ghost Value = { List (Option Extent) };

    ghost view = { λ e. reverse e.items.items };
}

impl Extents {
    /// Makes an empty stack.
    pub(crate) fn new(alloc: Global) -> Self
        ensures { result ≡ [] }
    {
        Extents {
            items: SmallVec::new(alloc),
        }
    }

    /// Pushes `extent`.
    pub(crate) fn push(&mut self, extent: Option<Extent>) -> Result<(), Refusal>
        ensures ok { OnOk result (self.new ≡ extent ∷ self.old) }
        ensures err { IfErr result IsMemory }
    {
        self.items.push(extent)?;
        Ok(())
    }

    /// Pops the extent on top, or returns none if the stack is empty.
    pub(crate) fn pop(&mut self) -> Option<Extent>
        ensures extent { result ≡ top_extent self.old }
        ensures rest { self.new ≡ extents_below self.old }
    {
        match self.items.pop() {
            Some(extent) => extent,
            None => None,
        }
    }
}
