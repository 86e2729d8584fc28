use omega_game::Solution;

/// How the turn of a searcher ended. The edges are those that it visited, about.
#[derive(Clone, Copy, Debug, PartialEq, Eq)]
pub enum Turn {
    /// It was not taken: another searcher was asked for alone, or had found a solution before.
    Untaken,
    /// The searcher used up its fuel or its room.
    GaveUp { edges: u64 },
    /// The suggestion of the searcher was not accepted.
    Rejected { edges: u64 },
    /// The suggestion of the searcher was accepted.
    Found { edges: u64 },
}

/// The turns of all searchers, in the order in which they are taken.
#[derive(Clone, Copy, Debug, PartialEq, Eq)]
pub struct Turns {
    /// The turn of Zielonka's algorithm.
    pub zielonka: Turn,
    /// The turn of tangle learning.
    pub tangles: Turn,
}

/// What the searchers came to.
#[derive(Drop)]
pub struct Searched {
    /// The solution that one of them found, if any did.
    pub solution: Option<Solution>,
    /// How the turn of each ended.
    pub turns: Turns,
}
