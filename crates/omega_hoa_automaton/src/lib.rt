//! Omega-automata of the Hanoi format as values, and the meaning of an automaton that is written.
//!
//! docs/formats.md says when each `Refusal` comes.
#![tactic(auto)]

mod automaton;
mod branching;
mod edge;
mod edge_ref;
mod edges;
mod header;
mod judging;
mod laws;
mod limits;
mod making;
mod state;
mod tool;

pub use automaton::Automaton;
pub use branching::has_universal_branching;
pub use edge::Edge;
pub use edge_ref::EdgeRef;
pub use edges::Edges;
pub use header::Header;
pub use laws::{
    faults_are_least, meanings_are_automata, meanings_are_one, meanings_are_there,
    meanings_have_no_fault, no_fault_is_none,
};
pub use limits::{MOST_PROPOSITIONS, MOST_TOTAL_SIZE, automaton_limits_are_stated};
pub use making::automaton_of;
pub use omega_hoa_acceptance::{Acc, AccName, Parameter};
pub use omega_hoa_label::Label;
pub use omega_hoa_syntax::{HeaderValue, RawAutomaton, StateName};
pub use omega_text::{AutomatonFault, ByteString, Marks, Numbers, Refusal, Seq};
pub use state::State;
pub use tool::Tool;
