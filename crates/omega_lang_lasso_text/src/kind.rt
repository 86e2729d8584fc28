/// The kind of a token of a lasso text.
#[derive(Clone, Copy, Debug, PartialEq, Eq)]
pub enum LassoKind {
    /// A number, from 0 to `MOST_NUMBER` of `omega_text`.
    Number,
    /// The word `stem`, with which a text begins.
    Stem,
    /// The word `cycle`, which ends the stem.
    Cycle,
}
