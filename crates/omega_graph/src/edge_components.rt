ghost use Rattle.std.specs.Prelude.{◌≡◌, ◌<◌, ◌+◌, [], ◌∷◌, ◌++◌, length, slice_index_or, OnOk, OnErr};
ghost use Rattle.omega_graph.specs.Components.{edge_component_at};
ghost use Rattle.omega_text.specs.JoinedLists.{AreStarts, list_at};

use std::alloc::{AllocError, Global};
use std::marker::Model;

/// Groups of edges, one after the other in one list.
#[derive(Debug)]
pub struct EdgeComponents {
    // The edges of all components, and the index at which each component starts.
    starts: Vec<usize>,
    edges: Vec<u32>,
}

impl Drop for EdgeComponents {
    fn drop(self) {
        let EdgeComponents {
            starts: _,
            edges: _,
        } = self;
    }
}

impl Model for EdgeComponents {
    ghost use Rattle.std.specs.Prelude.{List, ℕ, length};
    ghost use Rattle.omega_text.specs.JoinedLists.{lists_of, AreStarts};

    ghost Value = { List (List ℕ) };

    ghost view = { λ g. lists_of g.starts.items g.edges.items };

    ghost invariant = { λ g. AreStarts g.starts.items (length g.edges.items) };
}

impl EdgeComponents {
    /// Returns a list without components. Takes no memory.
    pub(crate) fn new(alloc: Global) -> EdgeComponents
        ensures { result ≡ [] }
    {
        EdgeComponents {
            starts: Vec::new(alloc),
            edges: Vec::new(alloc),
        }
    }

    /// Appends `edge_component`.
    pub(crate) fn push(&mut self, edge_component: &[u32]) -> Result<(), AllocError>
        ensures ok { OnOk result (self.new ≡ self.old ++ edge_component.now ∷ []) }
        ensures err { OnErr result (self.new ≡ self.old) }
    {
        self.starts.push(self.edges.len())?;
        if self.edges.extend_from_slice(edge_component).is_err() {
            let _ = self.starts.pop();
            return Err(AllocError);
        }
        Ok(())
    }

    /// Appends `edge_component` unless it is empty.
    pub(crate) fn add(&mut self, edge_component: &[u32]) -> Result<(), AllocError>
        ensures some { OnOk result
            (0 < length edge_component.now → self.new ≡ self.old ++ edge_component.now ∷ []) }
        ensures none { OnOk result (length edge_component.now ≡ 0 → self.new ≡ self.old) }
    {
        if edge_component.is_empty() {
            return Ok(());
        }
        self.push(edge_component)?;
        Ok(())
    }

    /// Returns the number of components.
    pub fn len(&self) -> usize
        ensures { result ≡ length self.now }
    {
        self.starts.len()
    }

    /// Returns the edges of the component at `index`.
    pub fn edge_component(&self, index: usize) -> &[u32]
        requires { index < length self.now }
        ensures { result.now ≡ edge_component_at self.now index }
    {
        list_in(self.starts.as_slice(), self.edges.as_slice(), index)
    }
}

/// Returns the list at `index` of those that lie one after the other in `items`.
fn list_in<'a>(starts: &[usize], items: &'a [u32], index: usize) -> &'a [u32]
    requires within { index < length starts.now }
    requires starts { AreStarts starts.now (length items.now) }
    ensures { result.now ≡ list_at starts.now items.now index }
{
    let start = starts[index];
    let end = end_in(starts, items.len(), index);
    &items[start..end]
}

/// Returns the end of the list at `index`: the start of the next one, or `size`.
fn end_in(starts: &[usize], size: usize, index: usize) -> usize
    requires { index < length starts.now }
    ensures { result ≡ slice_index_or starts.now (index + 1) size }
{
    match starts.get(index + 1) {
        Some(next) => *next,
        None => size,
    }
}
