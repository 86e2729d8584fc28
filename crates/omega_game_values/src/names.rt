ghost use Rattle.std.specs.Prelude.{◌≡◌, ℕ, ◌≤◌, [], length, option_map, slice_index_or, IfOk, OnOk};
ghost use Rattle.omega_game_values.specs.private.layout.Columns.{name_in_column};
ghost use Rattle.omega_game_values.specs.private.layout.Sorting.{ArePickedNames};

use crate::lists::Lists;
use std::alloc::{AllocError, Global};

/// Returns the name at a place, without its quotes. The quoted names may end early: the nodes past them have none.
pub(crate) fn name_at(quoted: &Lists<u8>, place: usize) -> Option<&[u8]>
    ensures { option_map (λ name. name.now) result
        ≡ name_in_column (slice_index_or quoted.now place []) }
{
    if place < quoted.len() {
        after_quote(quoted.list(place))
    } else {
        None
    }
}

/// Returns the bytes after an opening quote, or `None` if there is no quote.
fn after_quote(quoted: &[u8]) -> Option<&[u8]>
    ensures { option_map (λ name. name.now) result ≡ name_in_column quoted.now }
{
    match quoted {
        [] => None,
        [_, name @ ..] => Some(name),
    }
}

/// Gives each of the first `count` nodes an entry, and leaves the names as they are.
pub(crate) fn pad(quoted: &mut Lists<u8>, count: usize) -> Result<(), AllocError>
    requires { length quoted.old ≤ count }
    ensures same { (v : ℕ) → slice_index_or quoted.new v [] ≡ slice_index_or quoted.old v [] }
    ensures within { length quoted.new ≤ count }
    ensures ok { OnOk result (length quoted.new ≡ count) }
{
    while quoted.len() < count {
        quoted.push_list(&[])?;
    }
    Ok(())
}

/// Returns the quoted names of the nodes at these indices. Takes no memory if no node is named.
pub(crate) fn picked_names(
    alloc: Global,
    quoted: &Lists<u8>,
    order: &[usize],
) -> Result<Lists<u8>, AllocError>
    ensures names { IfOk result (λ names. ArePickedNames quoted.now order.now names) }
    ensures within { IfOk result (λ names. length names ≤ length order.now) }
{
    if quoted.len() == 0 {
        return Ok(Lists::new(alloc));
    }
    let names = quoted.picked_lists(alloc, order)?;
    Ok(names)
}
