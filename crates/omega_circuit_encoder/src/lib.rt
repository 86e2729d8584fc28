//! Controllers as circuits of and-gates and latches, by a translation of which is proved that it is safe, ends, keeps
//! its limits and returns a circuit in canonical form under the names of the propositions. What the circuit does is
//! judged by its user.
//!
//! [circuit_of_controller] chooses an edge for each state and each letter of the environment, merges states that choose
//! alike, numbers them in binary, and makes each output and each next bit of a state a tree of multiplexers.
#![tactic(auto)]

mod arena;
mod candidates;
mod choice;
mod choosing;
mod encoder;
mod exploring;
mod gates;
mod judging;
mod limits;
mod machine;
mod merging;
mod names;
mod network;
mod parting;
mod parts;
mod pruning;
mod witness;

pub use encoder::circuit_of_controller;
pub use names::side_names;
pub use omega_circuit::Circuit;
pub use omega_hoa_automaton::Automaton;
pub use omega_text::Refusal;
