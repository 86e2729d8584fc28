/// The stage of a lasso text between two tokens: the word that was read last.
#[derive(Clone, Copy)]
pub(crate) enum LassoStage {
    /// No word yet.
    Start,
    /// `stem`.
    Stem,
    /// `cycle`.
    Cycle,
}
