//! Solves parity games by fast searches, which are proved to be safe and to end, and nothing else. The checker of
//! strategies judges what they suggest. An accepted suggestion is exact, whatever the search did.
//!
//! Two searchers take turns. The first is Zielonka's recursive algorithm (`zielonka`), with little fuel: it is the
//! quicker one on most games and takes exponential time on some. The second is tangle learning (`tangles`), which
//! solves most of these.
//!
//! With the winners and their moves a searcher suggests an order of the places which proves the wins. Each edge that
//! the moves leave possible leads forward in it, or back to a place whose priority wins and is the greatest on the way.
#![tactic(auto)]

mod board;
mod chains;
mod judging;
mod searcher;
mod searching;
mod solving;
mod sorting;
mod subgame;
mod suggestion;
mod tangles;
mod turns;
mod zielonka;

pub use omega_game::{Refusal, Seq, Solution, Strategy};
pub use omega_game_values::{Game, Player};
pub use searcher::Searcher;
pub use searching::search;
pub use solving::{solve_by, solve_by_search};
pub use suggestion::{Finding, Suggestion};
pub use turns::{Searched, Turn, Turns};
