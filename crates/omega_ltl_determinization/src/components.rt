//! The strongly connected components of a graph, by number.
use omega_graph_search::{ComponentSearch, NONE, NumberTable, SearchedGraph, number_of};
use std::alloc::{AllocError, Global};

/// The component of each vertex of a graph.
pub struct Components {
    /// By vertex the number of its component. A component comes after those that it leads to.
    pub of: NumberTable,
    /// How many components there are.
    pub count: u32,
    /// The vertices in the order of their components.
    pub order: Vec<u32>,
}

impl Drop for Components {
    fn drop(self) {
        let Components {
            of: _,
            count: _,
            order: _,
        } = self;
    }
}

/// Returns the components of the graph whose vertex v has the targets from the index `ends[v - 1]`, or 0, up to
/// `ends[v]`. Linear in the vertices and targets. Nothing is proved of which components they are.
pub fn components_of(
    alloc: Global,
    ends: &[u32],
    targets: &[u32],
) -> Result<Components, AllocError> {
    let count = ends.len();
    let mut search = ComponentSearch::among_all(alloc, count)?;
    let mut graph = NumberedGraph {
        ends,
        targets,
        component: NumberTable::filled(alloc, count, NONE)?,
        count: 0,
        order: Vec::with_capacity(alloc, count)?,
    };
    for vertex in 0..number_of(count) {
        search.search_from(&mut graph, vertex)?;
    }
    let NumberedGraph {
        ends: _,
        targets: _,
        component,
        count,
        order,
    } = graph;
    Ok(Components {
        of: component,
        count,
        order,
    })
}

/// A graph whose components are being numbered.
#[derive(Drop)]
struct NumberedGraph<'a> {
    ends: &'a [u32],
    targets: &'a [u32],
    component: NumberTable,
    count: u32,
    order: Vec<u32>,
}

impl<'a> SearchedGraph for NumberedGraph<'a> {
    const LISTS_AS_LEFT: bool = true;

    fn first(&mut self, vertex: u32) -> u32 {
        if vertex == 0 {
            return 0;
        }
        self.ends.get((vertex - 1) as usize).copied().unwrap_or(0)
    }

    fn run(&self, vertex: u32, cursor: u32) -> &[u32] {
        let end = self.ends.get(vertex as usize).copied().unwrap_or(0);
        match self.targets.get(cursor as usize..end as usize) {
            Some(run) => run,
            None => &[],
        }
    }

    fn after(&self, cursor: u32, count: u32) -> u32 {
        cursor.wrapping_add(count)
    }

    fn complete(&mut self, component: &[u32]) -> Result<(), AllocError> {
        for vertex in component {
            self.component.put(*vertex, self.count);
            self.order.push(*vertex)?;
        }
        self.count = self.count.wrapping_add(1);
        Ok(())
    }
}
