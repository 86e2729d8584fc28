//! Laws of the answers of `solve` and `verify` together, for callers' proofs. Each call does nothing and states one
//! law.
ghost use Rattle.omega_answers_game.specs.Laws.{SolvedIsNotRefused, SolvedIsVerified};

use omega_game::{parts_are_games, parts_keep_nodes};
use omega_pg::laws::{
    games_are_not_refused, games_of_texts_are_one, solutions_are_not_refused,
    solutions_of_texts_are_one, written_solutions_are_read,
};

/// States that `verify_solution` judges the output of `solve_game` for both players to be right, for the same game or
/// the part that the same node reaches.
pub fn solved_is_verified()
    ensures { SolvedIsVerified }
{
    games_of_texts_are_one();
    parts_are_games();
    parts_keep_nodes();
    written_solutions_are_read();
    solutions_of_texts_are_one();
}

/// States that `verify_solution` does not refuse the output of `solve_game` for both players.
pub fn solved_is_not_refused()
    ensures { SolvedIsNotRefused }
{
    games_of_texts_are_one();
    games_are_not_refused();
    parts_are_games();
    parts_keep_nodes();
    written_solutions_are_read();
    solutions_are_not_refused();
}
