use omega_text::{Numbers, Seq};

/// Whether an automaton is realizable, and by what.
#[derive(Debug, Drop)]
pub enum Realizability {
    /// There is a controller.
    Realizable {
        /// The numbers of its edges, each once, in rising order: each is usable, and leaves a state to which they lead.
        kept: Seq<u32>,
    },
    /// There is a counter-strategy.
    Unrealizable {
        /// The numbers of the edges that answer its letters in states to which these edges lead, each once, in rising
        /// order.
        kept: Seq<u32>,
        /// For each state, by number, the environment's letter: the propositions that hold.
        letters: Seq<Numbers>,
    },
}
