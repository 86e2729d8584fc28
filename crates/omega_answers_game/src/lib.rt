//! The answers of each subcommand to the texts of games and of their solutions.
//!
//! docs/formats.md says when each refusal comes.
//!
//! The strongly connected components of a game's graph: how many there are, and how large the largest is.
//!
//! The edges of the game become a table, in which `omega_graph` finds the components that have edges (`graph`).
//! Each place gets the least place of its component, its leader (`leaders`), and leaders are counted (`counting`).
//!
//! Games in which the least priority decides, as games in which the greatest does.
#![tactic(auto)]

mod canon;
mod check;
mod counting;
mod draw;
mod dropping;
mod graph;
mod laws;
mod leaders;
mod least_priority_laws;
mod numbered;
mod part;
mod player_text;
mod show;
mod solve;
mod turning;
mod verify;

pub use canon::canon_game;
pub use canon::least::canon_least;
pub use canon::part::canon_part;
pub use check::check_game;
pub use counting::{Components, components_are_unique, count_components};
pub use draw::{draw_game_text, draw_solution_text};
pub use laws::{solved_is_not_refused, solved_is_verified};
pub use least_priority_laws::{
    least_winning_means_all_plays, turned_games_are_games, turned_games_keep_limits,
    turned_games_win_alike, turned_regions_are_alike, turned_texts_are_read,
};
pub use omega_game_search::{Searcher, Turn, Turns};
pub use omega_game_values::ForwardGame;
pub use omega_io::Exit;
pub use omega_solve::budget::{NoObserver, Reporter};
pub use omega_solve::{Player, Refusal};
pub use show::json::show_json;
pub use show::show_game;
pub use solve::asked::Asked;
pub use solve::both::{fits_both, solution_in_turns, winners_of};
pub use solve::searching::Searching;
pub use solve::solve_game;
pub use turning::turned_priorities;
pub use verify::explaining::lost_by;
pub use verify::winners::verify_winners;
pub use verify::{judged_game, verify_solution};
