use std::alloc::AllocError;

/// A graph whose components a search finds, and what becomes of them. Vertices are numbered from 0.
///
/// The successors of a vertex are read in runs of those that lie side by side, by a cursor: an index in a list, or the
/// number of an edge. Nothing is asked of them, so that they may be wrong: each search ends.
pub trait SearchedGraph {
    /// Whether a component lists its vertices in the order in which the search left them, else in that in which it
    /// found them.
    const LISTS_AS_LEFT: bool;

    /// Returns the cursor of the first successor of `vertex`, which the search found just now.
    fn first(&mut self, vertex: u32) -> u32;

    /// Returns successors of `vertex` that lie side by side from `cursor` on, or none past the last.
    fn run(&self, vertex: u32, cursor: u32) -> &[u32];

    /// Returns the cursor after the first `count` of the run at `cursor`.
    fn after(&self, cursor: u32, count: u32) -> u32;

    /// Returns the cursor of the run after that at `cursor`, or none after the last run of a vertex.
    #[inline(always)]
    fn next_run(&self, _cursor: u32) -> Option<u32> {
        None
    }

    /// Notes that `vertex` is left: all its successors were looked at. `found` is when it was found, and `low` its
    /// low-link (Tarjan), the least such number of a vertex of its component that it is known to reach.
    #[inline(always)]
    fn leave(&mut self, _vertex: u32, _found: u32, _low: u32) {}

    /// Notes that `vertex` is a successor of its own.
    #[inline(always)]
    fn note_loop(&mut self, _vertex: u32) {}

    /// Takes the vertices of the next component. It comes after all those that it leads to.
    fn complete(&mut self, component: &[u32]) -> Result<(), AllocError>;
}
