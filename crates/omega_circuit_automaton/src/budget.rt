//! How many edges and nodes of labels an automaton may have.

use omega_hoa_automaton::MOST_TOTAL_SIZE;
use omega_hoa_edges::MOST_EDGES;
use omega_hoa_label::RawLabel;
use omega_text::{Refusal, TaskFault};

/// Counts what was made so far.
#[derive(Debug, Drop)]
pub(crate) struct Budget {
    edges: usize,
    nodes: usize,
}

impl Budget {
    /// Returns counts of nothing.
    pub(crate) fn new() -> Budget {
        Budget { edges: 0, nodes: 0 }
    }

    /// Counts an edge with this label. Fails with [TaskFault::TooLarge] if there are over `MOST_EDGES` edges, or over
    /// `MOST_TOTAL_SIZE` nodes of labels.
    pub(crate) fn take(&mut self, label: &RawLabel) -> Result<(), Refusal> {
        let size = label.bare_size().unwrap_or(0);
        self.edges = self.edges.saturating_add(1);
        self.nodes = self.nodes.saturating_add(size);
        if self.edges > MOST_EDGES || self.nodes > MOST_TOTAL_SIZE as usize {
            return Err(Refusal::Task(TaskFault::TooLarge));
        }
        Ok(())
    }
}
