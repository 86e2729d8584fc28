//! What `realize` answers to the text of one automaton.
//!
//! docs/formats.md says when each refusal comes.
//!
//! What `verify --specification` answers to the text of a specification and to that of a controller or of a
//! counter-strategy, and what is answered to the text of a formula in its place.
//!
//! What `realize -f` answers to the text of a formula: whether some system satisfies it, or an automaton that shows it.
//! Whatever search found that automaton, it is judged.
//!
//! docs/formats.md says when each refusal comes.
#![tactic(auto)]

mod about;
mod counter;
mod decide;
mod decided;
mod formula_controller;
mod formula_counter;
mod formula_decide;
mod formula_game;
mod formula_judged;
mod formula_winner;
mod game;
mod given_names;
mod laws;
mod letter;
mod outputs;
mod own_faults;
mod parting;
mod question;
mod reason;
mod verify;
mod winner;

pub use counter::verify_counter_strategy;
pub use decide::{decide_realizability, decide_realizability_by_lifting};
pub use formula_controller::verify_formula_controller;
pub use formula_counter::verify_formula_counter_strategy;
pub use formula_decide::decide_formula_realizability;
pub use formula_game::write_formula_game;
pub use formula_winner::write_formula_winner;
pub use game::write_realizability_game;
pub use given_names::GivenNames;
pub use laws::{
    controller_answers_are_exact, controllers_exclude_strategies,
    controllers_for_exclude_counter_strategies, counter_answers_are_exact, formula_answers_are_one,
    formula_refusals_are_no_failures, letters_are_true_where_given, realize_answers_are_exact,
    size_refusals_exclude_answers, winner_answers_are_exact, written_controllers_are_parts,
    written_formula_controllers_are_judged, written_formula_counter_strategies_are_judged,
    yes_excludes_unrealizable, yes_excludes_yes,
};
pub use omega_answers::Exit;
pub use outputs::outputs_of;
pub use verify::verify_controller;
pub use winner::{write_winner, write_winner_by_lifting};
