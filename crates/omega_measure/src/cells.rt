//! Whether a table of measures has no more cells than a table may have.
ghost use Rattle.std.specs.Prelude.{◌≡◌, ◌*◌, ◌<◌, ◌≤◌, count_by, false, nat_lt, not};
ghost use Rattle.omega_game_values.specs.Game.{priorities};
ghost use Rattle.omega_game_values.specs.Player.{loses};
ghost use Rattle.omega_measure.specs.Limits.{most_cells};
ghost use Rattle.omega_measure.specs.Table.{is_too_wide};

use crate::limits::MOST_CELLS;
use omega_game_values::{ForwardGame, Player, PriorityCount};

/// Whether a table of the measures of `player` over `game` has at most `MOST_CELLS` cells. Requests no memory, and
/// takes a step for each priority in use.
pub fn fits(game: &ForwardGame, player: Player) -> bool
    ensures { result ≡ not (is_too_wide player (priorities game.now)) }
{
    !is_too_wide(game.len(), losing_among(game.priority_counts(), player))
}

/// Counts the priorities that lose for `player`.
fn losing_among(counts: &[PriorityCount], player: Player) -> usize
    ensures { result ≡ count_by (λ count. loses player count.priority) counts.now }
{
    counts
        .iter()
        .filter(|count| player.loses(count.priority))
        .count()
}

/// Whether `nodes` rows of `entries` entries each have more cells than a table may have.
pub(crate) fn is_too_wide(nodes: usize, entries: usize) -> bool
    requires { 0 < nodes }
    ensures wide { result ≡ nat_lt most_cells (nodes * entries) }
    ensures few { result ≡ false → entries ≤ most_cells }
{
    match nodes.checked_mul(entries) {
        Some(cells) => cells > MOST_CELLS,
        None => true,
    }
}
