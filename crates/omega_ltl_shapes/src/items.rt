//! Short lists of numbers as sets.

ghost use Rattle.std.specs.Prelude.{◌↔◌, [], ◌∷◌, Contains, IfOk, IsTrue, OnOk};
ghost use Rattle.omega_ltl_shapes.specs.Terms.{HasItems, HasItemsOfBoth};

use omega_text::Numbers;
use std::alloc::{AllocError, Global};

/// Whether `items` has a number.
pub fn has_item(items: &[u32], number: u32) -> bool
    ensures { IsTrue result ↔ Contains items.now number }
{
    items.contains(&number)
}

/// Whether `more` has all numbers of `items`.
pub fn has_items(more: &[u32], items: &[u32]) -> bool
    ensures { IsTrue result ↔ HasItems items.now more.now }
{
    for item in items {
        if !has_item(more, *item) {
            return false;
        }
    }
    true
}

/// Returns the numbers of both lists: those of `one`, and then those of `other` that are missing.
pub fn items_of_both(alloc: Global, one: &[u32], other: &[u32]) -> Result<Numbers, AllocError>
    ensures { IfOk result (HasItemsOfBoth one.now other.now) }
{
    let mut both = Numbers::from_slice(alloc, one)?;
    for item in other {
        push_missing(alloc, *item, &mut both)?;
    }
    Ok(both)
}

/// Appends a number, unless it is there.
fn push_missing(alloc: Global, item: u32, items: &mut Numbers) -> Result<(), AllocError>
    ensures { OnOk result (HasItemsOfBoth items.old (item ∷ []) items.new) }
{
    if has_item(items.as_slice(), item) {
        return Ok(());
    }
    items.push(alloc, item)?;
    Ok(())
}
