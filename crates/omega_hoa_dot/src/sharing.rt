//! Edges of a state that share arrows.

ghost use Rattle.std.specs.Prelude.{◌≡◌, ◌<◌, None, Some, IfOk, IsOkUnless, List};
ghost use Rattle.std.specs.Prelude.{ℕ, Option, length, nat_eq, slice_index_or};
ghost use Rattle.std.specs.BTreeMap.{get};
ghost use Rattle.std.specs.Option.{option_eq};
ghost use Rattle.std.specs.Ordering.{nat_cmp};
ghost use Rattle.omega_hoa_dot.specs.private.layout.Sharing.{IsSharing};

use omega_text::Refusal;
use std::alloc::Global;
use std::collections::BTreeMap;

/// A table of the edges of a state that share arrows.
#[derive(Drop)]
pub(crate) struct ArrowSharing {
    /// For each edge the next that shares its arrow, if there is one.
    next: Vec<Option<usize>>,
    /// For each state the first edge that shares an arrow to it.
    firsts: BTreeMap<u32, usize>,
}

/// Returns the table of edges that share arrows to these `targets`. The cost is n log n in the edges.
pub(crate) fn sharing_of(alloc: Global, targets: &[Option<u32>]) -> Result<ArrowSharing, Refusal>
    ensures sharing { IfOk result (λ sharing. IsSharing targets.now sharing) }
    ensures memory { IsOkUnless result Refusal.Memory }
{
    let mut next = vec![in alloc; None; targets.len()]?;
    let mut firsts = BTreeMap::new(alloc);
    for index in (0..targets.len()).rev() {
        match targets[index] {
            Some(target) => next[index] = firsts.insert(target, index)?,
            None => {}
        }
    }
    Ok(ArrowSharing { next, firsts })
}

impl ArrowSharing {
    /// Returns the next edge that shares the arrow of the edge of this `index`.
    pub(crate) fn next(&self, index: usize) -> Option<usize>
        requires { index < length self.now.next.items }
        ensures { result ≡ slice_index_or self.now.next.items index None }
    {
        self.next[index]
    }

    /// Whether the edge of this `index` is the first that shares an arrow to `target`.
    pub(crate) fn is_first(&self, index: usize, target: u32) -> bool
        ensures { result ≡ option_eq nat_eq (get nat_cmp self.now.firsts target) (Some index) }
    {
        self.firsts.get(&target).copied() == Some(index)
    }
}
