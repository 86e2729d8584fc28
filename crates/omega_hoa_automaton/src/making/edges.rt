ghost use Rattle.std.specs.Prelude.{◌<◌, ◌^◌, length};
ghost use Rattle.std.specs.List.{flat_map};
ghost use Rattle.std.specs.Option.{SomeIff};
ghost use Rattle.omega_hoa_automaton.specs.Automaton.{edges_from};

use crate::state::State;

/// Returns the number of edges of `states`, or none if it does not fit in 32 bits.
pub(crate) fn count_edges(states: &[State]) -> Option<u32>
    ensures { SomeIff result
        (length (flat_map edges_from states.now) < 2 ^ 32)
        (length (flat_map edges_from states.now)) }
{
    let mut count = 0u32;
    for state in states {
        let more = state.edges.len();
        if more > (u32::MAX - count) as usize {
            return None;
        }
        count += more as u32;
    }
    Some(count)
}
