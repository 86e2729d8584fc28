use omega_game_values::Game;

/// The number of edges that Zielonka's algorithm may visit, for each node and each edge.
const ZIELONKA_FUEL: u64 = 16;

/// The number of edges that tangle learning may visit in any game, for each node and each edge more, and at most.
const TANGLES_FUEL: u64 = 10_000_000;

const TANGLES_FUEL_A_UNIT: u64 = 4_000;

const MOST_TANGLES_FUEL: u64 = 4_000_000_000;

/// An algorithm that searches for the winning regions of a game.
#[derive(Clone, Copy, Debug, PartialEq, Eq)]
pub enum Searcher {
    /// Zielonka's recursive algorithm (Zielonka 1998): quick on most games, exponential on some.
    Zielonka,
    /// Tangle learning (van Dijk 2018): slower on easy games, and quick on most on which the other one is slow.
    Tangles,
}

impl Searcher {
    /// Returns how many edges the searcher may visit in `game`, `effort` times as many as with an effort of 1.
    pub(crate) fn fuel(self, game: &Game, effort: u64) -> u64 {
        let size = (game.len() as u64).saturating_add(game.edges() as u64);
        let single = match self {
            Searcher::Zielonka => size.saturating_mul(ZIELONKA_FUEL),
            Searcher::Tangles => size
                .saturating_mul(TANGLES_FUEL_A_UNIT)
                .saturating_add(TANGLES_FUEL)
                .min(MOST_TANGLES_FUEL),
        };
        single.saturating_mul(effort)
    }
}
