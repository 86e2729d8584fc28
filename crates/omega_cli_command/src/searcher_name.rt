/// A searcher that may be asked for alone.
#[derive(Clone, Copy, Debug, PartialEq, Eq)]
pub enum SearcherName {
    /// Zielonka's recursive algorithm.
    Zielonka,
    /// Tangle learning.
    Tangles,
}
