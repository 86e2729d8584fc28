use omega_text::Seq;

/// A verdict on the emptiness of an automaton: empty, or an accepting lasso.
#[derive(Debug, Drop, PartialEq, Eq)]
pub enum Verdict {
    /// No run accepts.
    Empty,
    /// An accepting lasso, by the numbers of its edges.
    Lasso {
        /// The edges from a start to the cycle, in order. There may be none.
        stem: Seq<u32>,
        /// The edges of the cycle, in order, at least one.
        cycle: Seq<u32>,
    },
}
