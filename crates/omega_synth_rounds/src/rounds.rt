use omega_text::{Numbers, Seq};

/// An edge from a state to a state.
#[derive(Clone, Copy, Debug)]
pub struct RoundEdge {
    /// The number of the state that it leaves.
    pub source: u32,
    /// The number of the state that it enters.
    pub target: u32,
    /// The priority: even ones are good for player 0, and of several the greatest decides.
    pub priority: u32,
}

/// The numbers of a state's questions, from `first` up to `end`, which is excluded.
#[derive(Clone, Copy, Debug)]
pub struct QuestionRange {
    pub first: u32,
    pub end: u32,
}

/// A game in rounds. In a state player 1 asks one of its questions, and player 0 answers it by an edge, which leads to
/// the next state.
#[derive(Debug)]
pub struct Rounds {
    /// The questions of each state, by its number.
    pub states: Seq<QuestionRange>,
    /// The edges by number.
    pub edges: Seq<RoundEdge>,
    /// For each question the numbers of the edges that answer it.
    pub questions: Seq<Numbers>,
}

impl Drop for Rounds {
    fn drop(self) {
        let Rounds {
            states: _,
            edges: _,
            questions: _,
        } = self;
    }
}
