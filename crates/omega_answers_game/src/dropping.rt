//! Drops games. Their vectors are dropped one by one, which is proved of these functions once and not of each owner.
use omega_game::{ForwardGame, Game};
use omega_solve::budget::Reordered;

/// Drops `game`.
pub fn drop_game(_game: ForwardGame) {}

/// Drops `game` with its predecessors.
pub fn drop_whole(_game: Game) {}

/// Drops the reordered game.
pub fn drop_reordered(_reordered: Reordered<'_>) {}
