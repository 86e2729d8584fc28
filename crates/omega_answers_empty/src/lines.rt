/// The lines that are written after those of a lasso.
#[derive(Clone, Copy, Debug, PartialEq, Eq)]
pub struct Lines {
    /// Whether there is one of its word.
    pub word: bool,
    /// Whether there is one of its run, with the names of its states.
    pub run: bool,
}
