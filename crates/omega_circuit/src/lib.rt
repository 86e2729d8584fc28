//! Circuits of and-gates and latches, as the AIGER format has them (Biere, Heljanko and Wieringa, 2011): their values,
//! what they do round by round, and which parts make one.
//!
//! A variable is a number, and the variable 0 is false. The literal `2 v` is the variable `v`, and `2 v + 1` is its
//! negation.
#![tactic(auto)]

mod canonical;
mod circuit;
mod gate;
mod gate_order;
mod judging;
mod latch;
pub mod laws;
mod limits;
mod literals;
mod names;
mod parts;
mod properties;
mod round;
mod symbol;
mod variables;
mod wiring;

pub use canonical::canonical_circuit;
pub use circuit::{Circuit, circuit_of};
pub use gate::Gate;
pub use latch::Latch;
pub use limits::MOST_VARIABLES;
pub use parts::CircuitParts;
pub use properties::Properties;
pub use symbol::{Symbol, SymbolKind};
