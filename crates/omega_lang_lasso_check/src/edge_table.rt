//! The edges of an automaton, by number.

use omega_hoa_automaton::{Automaton, EdgeRef, State};
use omega_lang_runs::{EdgePlace, edge_of};

/// An automaton, and the places of its edges, by number.
#[derive(Clone, Copy)]
pub(crate) struct EdgeTable<'a> {
    pub(crate) automaton: &'a Automaton,
    pub(crate) places: &'a [EdgePlace],
}

/// An edge, and the state that it leaves.
#[derive(Drop)]
pub(crate) struct TableEdge<'a> {
    pub(crate) source: &'a State,
    pub(crate) edge: EdgeRef<'a>,
}

impl<'a> EdgeTable<'a> {
    ghost use Rattle.omega_lang_lasso_check.specs.Conditions.{IsNumber};
    ghost use Rattle.omega_lang_lasso_check.specs.private.EdgeTable.{IsEdgeAt, IsTable, automaton_of};

    /// Returns the edge with this `number`.
    pub(crate) fn find(&self, number: u32) -> TableEdge<'a>
        requires places { IsTable self.now }
        requires there { IsNumber (automaton_of self.now) number }
        ensures { IsEdgeAt self.now number result }
    {
        match edge_of(self.automaton, self.places, number) {
            Some(found) => TableEdge {
                source: found.state,
                edge: found.state.edges.edge(found.index),
            },
            None => unreachable!(),
        }
    }
}
