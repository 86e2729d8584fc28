//! The automaton of a circuit: it accepts exactly the circuit's words. Its states are the valuations of the latches
//! that are reached, and an edge answers the letters of the inputs that fit a cube.
//!
//! The cubes of a state are found by splitting: the gates are evaluated with some inputs unknown, and one of these is
//! split while an output or a next value of a latch depends on it. In up to 64 states at once the gates are evaluated
//! with all inputs unknown, and then for each cube those alone that are still unknown and that matter.
#![tactic(auto)]

mod automaton;
mod budget;
mod demand;
mod ends;
mod evaluator;
mod exploring;
mod gate_order;
mod header;
mod known;
mod labels;
mod lanes;
mod names;
mod splitting;
mod table;
mod ternary;
mod valuations;

pub use automaton::circuit_automaton;
pub use names::proposition_names;
pub use omega_circuit::Circuit;
pub use omega_hoa_automaton::Automaton;
pub use omega_text::Refusal;
