//! What `check`, `show`, `canon` and `automaton` answer to the text of a circuit, and `verify` to the text of a
//! specification or of a formula and to that of a circuit; and the circuits that `realize --aiger` writes.
//!
//! docs/formats.md says when each refusal comes.
#![tactic(auto)]

mod automaton;
mod canon;
mod check;
mod circuit_form;
mod circuit_text;
mod controller_circuit;
mod formula_circuit;
mod judge;
mod judgement;
mod judgement_answer;
pub mod judging_laws;
pub mod laws;
mod own_refusals;
mod show;
mod show_json;
mod sides;
mod verify;
mod verify_formula;
mod winning_circuit;
pub mod writing_laws;

pub use automaton::write_circuit_automaton;
pub use canon::canon_circuit;
pub use check::check_circuit;
pub use circuit_form::CircuitForm;
pub use formula_circuit::write_formula_circuit;
pub use judgement::CircuitJudgement;
pub use show::show_circuit;
pub use show_json::show_circuit_json;
pub use verify::verify_circuit;
pub use verify_formula::verify_formula_circuit;
pub use winning_circuit::write_winning_circuit;
