//! Graphs as lists of edges: breadth-first search, shortest walks, and strongly connected components.
//!
//! Closed walks of graphs with marked edges: laws by which a search finds one that satisfies an acceptance formula, or
//! excludes one.
#![tactic(auto)]

mod decomposing;
mod edge;
mod edge_components;
mod edges;
mod ends;
mod entering;
mod graph;
mod judging;
mod kept;
mod links;
mod met;
mod numbering;
mod plain;
mod reaching;
mod rules;
mod scratch;
mod searching;
mod suggesting;
mod suggestion;
mod walking;

pub use decomposing::components;
pub use edge::Edge;
pub use edge_components::EdgeComponents;
pub use graph::Graph;
pub use omega_text::Refusal;
pub use reaching::reached_flags;
pub use rules::{
    all_edges_show_inf, connected_edges_accept, disjunctions_split, fin_is_tried_both_ways,
    fin_takes_edges, known_atoms_fall, passing_walks_accept, walks_are_kept, walks_have_edges,
    walks_need_inf, walks_stay_in_components,
};
pub use scratch::Scratch;
pub use walking::path;
