use omega_text::Seq;

/// Who wins a game in rounds, and how.
#[derive(Debug, Drop)]
pub enum Outcome {
    /// Player 0 wins.
    Answered {
        /// The numbers of the edges that player 0 answers by in states to which these edges lead, each once, in rising
        /// order.
        kept: Seq<u32>,
    },
    /// Player 1 wins.
    Asked {
        /// The numbers of the edges that answer the questions asked in states to which these edges lead, each once, in
        /// rising order.
        kept: Seq<u32>,
        /// For each state the number of the question that player 1 asks.
        asked: Seq<u32>,
    },
}
