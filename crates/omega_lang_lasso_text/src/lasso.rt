use omega_text::Seq;

/// A lasso as its text gives it: the numbers of edges, as an automaton numbers them in the order of its body.
#[derive(Debug, PartialEq, Eq)]
pub struct LassoText {
    /// The edges from a start to the cycle, in order. There may be none.
    pub stem: Seq<u32>,
    /// The edges of the cycle, in order, at least one.
    pub cycle: Seq<u32>,
}

impl Drop for LassoText {
    fn drop(self) {
        let LassoText { stem: _, cycle: _ } = self;
    }
}
