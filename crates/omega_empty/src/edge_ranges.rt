ghost use Rattle.std.specs.Prelude.{◌≡◌, ◌<◌, ◌≤◌, ◌^◌, IfOk, IsOkUnless};
ghost use Rattle.omega_hoa_automaton.specs.Automaton.{edge_count};
ghost use Rattle.omega_game_values.specs.Limits.{most_nodes};
ghost use Rattle.omega_empty.specs.private.layout.Ranges.{AreRanges};

use omega_hoa_automaton::{Automaton, Refusal};
use std::alloc::Global;

/// Numbers of edges, from `first` up to `end`, which is excluded.
#[derive(Clone, Copy)]
pub(crate) struct EdgeRange {
    pub(crate) first: u32,
    pub(crate) end: u32,
}

/// Returns for each state of `automaton` the numbers of the edges that leave it.
pub(crate) fn edge_ranges(alloc: Global, automaton: &Automaton) -> Result<Vec<EdgeRange>, Refusal>
    requires { edge_count automaton.now < most_nodes }
    ensures ranges { IfOk result (λ ranges. AreRanges automaton.now ranges.items) }
    ensures memory { IsOkUnless result Refusal.Memory }
{
    automaton.keeps_limits();
    let count = automaton.state_count() as usize;
    let mut ranges = vec![in alloc; EdgeRange { first: 0, end: 0 }; count]?;
    let mut next: usize = 0;
    for state in automaton.defined() {
        let end = next + state.edges.len();
        ranges[state.number as usize] = EdgeRange {
            first: next as u32,
            end: end as u32,
        };
        next = end;
    }
    Ok(ranges)
}
