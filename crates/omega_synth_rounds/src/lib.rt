//! Games in rounds and the parity games that decide them. In a round player 1 asks one of a state's questions, and
//! player 0 answers by an edge that it allows.
//!
//! docs/formats.md says when each refusal comes.
#![tactic(auto)]

mod extracting;
mod games;
mod laws;
mod naming;
mod nodes;
mod rounds;

pub use extracting::{AskedQuestions, asked_questions, chosen_answers};
pub use games::{named_rounds_game, rounds_game};
pub use laws::{chosen_answers_win, chosen_questions_win};
pub use omega_game_values::{Game, Refusal};
pub use omega_text::{Numbers, Seq};
pub use rounds::{QuestionRange, RoundEdge, Rounds};
