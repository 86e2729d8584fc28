ghost use Rattle.std.specs.Prelude.{◌≡◌, ◌==◌, ℕ, ◌+◌, ◌<◌, ◌≤◌, length, slice_index_or, position, IfOk};
ghost use Rattle.std.specs.List.Sorted.{IsStrictlyIncreasing};
ghost use Rattle.omega_game_values.specs.private.layout.Columns.{identifiers_of};
ghost use Rattle.omega_text.specs.Limits.{most_number};

use indexmap::IndexSet;
use std::alloc::{AllocError, Global};

/// Returns the identifier at a place: the place itself if no identifiers are listed.
pub(crate) fn identifier_at(listed: &[u32], place: u32) -> u32
    ensures { (n : ℕ) → place < n
        → result ≡ slice_index_or (identifiers_of n listed.now) place place }
{
    listed.get(place as usize).copied().unwrap_or(place)
}

/// Returns the place of an identifier among those of `count` nodes: the identifier itself if none are listed.
pub(crate) fn place_among(listed: &IndexSet<u32>, count: usize, id: u32) -> Option<u32>
    requires { length listed.now.keys ≤ most_number + 1 }
    ensures { result ≡ position (λ x. x == id) (identifiers_of count listed.now.keys) }
{
    if !listed.is_empty() {
        return Some(listed.get_index_of(&id)? as u32);
    }
    if (id as usize) < count {
        Some(id)
    } else {
        None
    }
}

/// Returns the identifiers to list: none if they are 0 to n - 1.
pub(crate) fn listed_ids(alloc: Global, ids: &[u32]) -> Result<IndexSet<u32>, AllocError>
    requires some { 0 < length ids.now }
    requires rising { IsStrictlyIncreasing ids.now }
    ensures { IfOk result (λ listed. identifiers_of (length ids.now) listed.keys ≡ ids.now) }
{
    if ids[ids.len() - 1] as usize == ids.len() - 1 {
        return Ok(IndexSet::new(alloc));
    }
    let mut listed = IndexSet::with_capacity(alloc, ids.len())?;
    for id in ids {
        listed.insert(*id)?;
    }
    Ok(listed)
}
