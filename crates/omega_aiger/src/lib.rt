//! Circuits as texts of the AIGER format (Biere 2007; version 1.9: Biere, Heljanko and Wieringa 2011): read in the
//! ASCII form `aag` and in the binary form `aig`, and written in the ASCII form.
//!
//! A text is read byte by byte, and nothing is allocated by a count of the header before the lines are there.
#![tactic(auto)]

mod ascii;
mod beginning;
mod binary;
mod binary_writing;
mod delta;
mod header;
pub mod laws;
mod line;
mod number;
mod properties;
mod reading;
mod symbols;
mod writing;

pub use beginning::begins_as_circuit;
pub use binary_writing::aig_text;
pub use reading::read_aiger;
pub use writing::aag_text;
