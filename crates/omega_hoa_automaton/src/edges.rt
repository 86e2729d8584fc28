ghost use Rattle.std.specs.Prelude.{◌≡◌, ◌<◌, length, map, slice_index_or};
ghost use Rattle.omega_hoa_automaton.specs.private.layout.Edges.{expanded};

use crate::edge::Edge;
use crate::edge_ref::EdgeRef;
use omega_hoa_syntax::ShortEdge;
use omega_text::Seq;
use std::marker::Model;

/// The edges of a state in the order written. Contracts see the list of edges.
///
/// An edge is short if it has no label, leads to one state and is in one set at most. Edges take 12 bytes each if all
/// edges of the state are short, else 64.
#[derive(Debug)]
pub struct Edges {
    held: Held,
}

impl Drop for Edges {
    fn drop(self) {
        let Edges { held: _ } = self;
    }
}

/// How the edges are kept in memory.
#[derive(Debug, Drop)]
enum Held {
    /// In compact form.
    Short(Seq<ShortEdge>),
    /// As they are.
    Full(Seq<Edge>),
}

impl Model for Edges {
    ghost use Rattle.std.specs.Prelude.{List};
    ghost use Rattle.std.specs.Coded.{codes};
    ghost use Rattle.omega_hoa_label.specs.contracts.label.Label as expanded_label;
    ghost use Rattle.omega_hoa_automaton.specs.declared.edge.Edge.{Edge};

    ghost Value = { List Edge };

    ghost coded = { Prim.hlevel (codes, expanded_label.the_row.coded) };

    ghost use Rattle.omega_hoa_automaton.specs.private.layout.Edges.{edges_in};

    ghost view = { λ e. edges_in e.held };
}

impl Edges {
    /// Makes the list of `edges`.
    pub fn from_seq(edges: Seq<Edge>) -> Edges
        ensures { result ≡ edges }
    {
        Edges {
            held: Held::Full(edges),
        }
    }

    /// Makes the list of edges that are kept in compact form.
    pub(crate) fn from_short(edges: Seq<ShortEdge>) -> Edges
        ensures { result ≡ map expanded edges }
    {
        Edges {
            held: Held::Short(edges),
        }
    }

    /// Returns the number of edges.
    pub fn len(&self) -> usize
        ensures { result ≡ length self.now }
    {
        match &self.held {
            Held::Short(edges) => edges.len(),
            Held::Full(edges) => edges.len(),
        }
    }

    /// Returns the edge at the index `at`, from 0.
    pub fn edge(&self, at: usize) -> EdgeRef<'_>
        requires { at < length self.now }
        ensures { result ≡ slice_index_or self.now at result }
    {
        match &self.held {
            Held::Short(edges) => short_edge(&edges.as_slice()[at]),
            Held::Full(edges) => full_edge(&edges.as_slice()[at]),
        }
    }
}

/// Returns the edge that is kept in compact form.
fn short_edge(edge: &ShortEdge) -> EdgeRef<'_>
    ensures { result ≡ expanded edge.now }
{
    let marks = match &edge.mark {
        Some(mark) => std::slice::from_ref(mark),
        None => &[],
    };
    EdgeRef {
        label: None,
        targets: std::slice::from_ref(&edge.target),
        marks,
    }
}

/// Returns the edge that is kept in full.
fn full_edge(edge: &Edge) -> EdgeRef<'_>
    ensures { result ≡ edge.now }
{
    EdgeRef {
        label: edge.label.as_ref(),
        targets: edge.targets.as_slice(),
        marks: edge.marks.as_slice(),
    }
}
