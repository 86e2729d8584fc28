//! Whether an automaton accepts exactly the words that satisfy a formula of linear temporal logic, and if not, words
//! that show it.
//!
//! One way it is satisfaction, and the other way the complement accepts no word that satisfies the formula
//! (`deciding`). So an automaton is judged that someone else's program found for a formula, or an unproved search of
//! this one (`judging`).
//!
//! docs/formats.md says when each refusal comes.
#![tactic(auto)]

mod deciding;
mod formula_equality;
mod judging;
pub mod laws;

pub use deciding::decide_formula_equality;
pub use formula_equality::FormulaEquality;
pub use judging::judged_automaton;
pub use omega_hoa_automaton::{Automaton, Refusal};
pub use omega_lang_intersection::Example;
pub use omega_lang_lasso_word::LassoWord;
pub use omega_ltl_formula::Formula;
