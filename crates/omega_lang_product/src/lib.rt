//! The product of two automata, which accepts the words that both accept.
//!
//! A table holds edges of each automaton as the product sees them, those of a state once a pair reaches it (`tables`,
//! `table`, `plain_edges`, `names`). The reachable pairs are found together with the edges between them (`exploring`,
//! `adding`), and each joint edge has the numbers of the two that it takes. That is the graph of the product
//! (`graphing`). The product itself has labels too (`labelling`, `states`): it is written as a text would have it, and
//! is judged and read as every written automaton is (`forming`).
//!
//! docs/formats.md says when each refusal comes.
#![tactic(auto)]

mod acceptance;
mod adding;
mod buchi;
mod conjoining;
mod explored;
mod exploring;
mod forming;
mod found_pairs;
mod graph;
mod graphing;
mod header;
mod joint_edges;
mod labelling;
mod names;
mod naming;
mod numbers;
mod operands;
mod pairs;
mod plain_edge;
mod plain_edges;
mod renumbering;
mod row;
mod starts;
mod states;
mod table;
mod tabled;
mod tables;

pub use acceptance::{buchi_formula, buchi_name};
pub use forming::product;
pub use graph::PairGraph;
pub use graphing::pair_graph;
pub use joint_edges::JointEdges;
pub use names::{joined_names, places_among};
pub use omega_hoa_automaton::{Automaton, Refusal};
pub use omega_hoa_edges::{MOST_EDGES, MOST_STATES, written_limits_are_stated};
pub use plain_edge::PlainEdge;
