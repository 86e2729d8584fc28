use omega_game_search::{Searcher, Turns};

/// How a game is searched, and how the turns of the searchers ended.
#[derive(Clone, Copy, Debug, PartialEq, Eq)]
pub struct Searching {
    /// The searcher that is to search alone.
    pub alone: Option<Searcher>,
    /// How many times as many edges as with an effort of 1 each searcher may visit.
    pub effort: u64,
    /// The turns, once the game is searched.
    pub turns: Option<Turns>,
}

impl Searching {
    ghost use Rattle.std.specs.Prelude.{◌≡◌, None};
    ghost use Rattle.omega_answers_game.specs.solve.Searching.{unsearched};

    /// Returns a search to be made by one searcher `alone`, or by both in turns if none is asked for.
    pub fn by(alone: Option<Searcher>, effort: u64) -> Searching
        ensures { result ≡ unsearched alone effort }
    {
        Searching {
            alone,
            effort,
            turns: None,
        }
    }

    /// Returns a search to be made by both searchers in turns, with an effort of 1.
    pub fn in_turns() -> Searching
        ensures { result ≡ unsearched None 1 }
    {
        Searching::by(None, 1)
    }
}
