//! Laws of all texts, for the proofs of callers: each function does nothing and states one law.

pub use crate::game::laws::{
    canonical_texts_are_read, games_are_not_refused, games_of_texts_are_one, refusals_are_one,
    syntax_faults_are_first, texts_are_read_or_refused,
};
pub use crate::solution::laws::{
    reasons_are_exact, solution_refusals_are_one, solution_syntax_faults_are_first,
    solution_texts_are_read_or_refused, solutions_are_not_refused, solutions_of_texts_are_one,
    written_solutions_are_read,
};
pub use crate::solution::winner_laws::{
    solutions_give_their_winners, winner_refusals_are_one, winner_texts_are_read_or_refused,
    winners_are_not_refused, winners_of_texts_are_one,
};
