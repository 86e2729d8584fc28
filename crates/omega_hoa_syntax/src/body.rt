//! The states and edges of a body. In the words of HOA's grammar, `guard` has the label of a state or an edge, and
//! `sig` its marks.

mod edge;
mod guard;
mod sig;
mod state;

pub(crate) use state::StateSyntax;
