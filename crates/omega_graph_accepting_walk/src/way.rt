use omega_text::Seq;

/// How a list of subformulas simplifies if one of them fails on the set of all edges, before any case split.
#[derive(Drop)]
pub(crate) enum Way {
    /// No closed walk in the edges satisfies its formulas.
    Nowhere,
    /// Each such walk satisfies the formulas of another list.
    On(Seq<u32>),
    /// Each such walk avoids all edges that meet a set of marks, as an atom `Fin` asks; the flag says whether its set
    /// has a `!`.
    Without(bool, u32),
    /// Either part of a disjunction may hold, so that a case split is needed.
    Either,
}
