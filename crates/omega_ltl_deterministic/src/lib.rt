//! Deterministic parity automata of formulas of linear temporal logic, by a search of which is proved that it is safe,
//! ends, keeps its limits and returns an automaton of the promised form. Which words it accepts is judged by its user.
//!
//! [deterministic_candidate] takes a formula apart into its maximal temporal parts, makes each of them deterministic,
//! and puts them together again by their product. [complete_candidate] adds a sink where letters have no edge.
//! [smaller_candidate] joins equal states of a winner's automaton.
#![tactic(auto)]

mod acceptance;
mod candidate;
mod completion;
mod cubes;
mod demand_graph;
mod forming;
mod judging;
mod label_letters;
mod labels;
mod leaf_formula;
mod leaves;
mod limits;
mod one_answer;
mod parts;
mod projection;
mod question;
mod questions;
mod smaller;
mod state_edges;
mod words;

pub use candidate::{complete_candidate, deterministic_candidate};
pub use limits::{MOST_CUBES, MOST_PARITY_SETS, candidate_limits_are_stated};
pub use omega_hoa_automaton::Automaton;
pub use omega_ltl_formula::Formula;
pub use omega_text::Refusal;
pub use smaller::smaller_candidate;
