//! Omega-automata of the Hanoi format as they are written, with each item, state and edge in its place. Their meaning
//! is not judged here.
#![tactic(auto)]

mod body;
mod conj;
mod expressions;
mod header;
mod header_value;
mod laws;
mod part;
mod raw_automaton;
mod raw_edge;
mod raw_edge_ref;
mod raw_edges;
mod raw_item;
mod raw_state;
mod reading;
mod same;
mod short_edge;
mod single;
mod state_name;
mod taking;

pub use header_value::HeaderValue;
pub use laws::raws_are_one;
pub use raw_automaton::RawAutomaton;
pub use raw_edge::RawEdge;
pub use raw_edge_ref::RawEdgeRef;
pub use raw_edges::{EdgeSlice, HeldEdges, RawEdges};
pub use raw_item::RawItem;
pub use raw_state::RawState;
pub use reading::read_raw;
pub use short_edge::ShortEdge;
pub use state_name::StateName;
