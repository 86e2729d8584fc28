//! Whether a strategy wins a parity game, and if not, why. Hands on `omega_game_values`, the bound on lifts, and the
//! parts of games, for those who use them too.
//!
//! A search suggests an order of the places, or a place at which the player loses (`checking::top_nodes`,
//! `checking::nesting`). Only its safety is proved: a proved pass judges what it suggests (`checking::deciding`). A
//! counterexample is a walk to that place and a cycle from there (`refuting`).
//!
//! docs/formats.md says when each refusal comes.
#![tactic(auto)]

mod checking;
mod following;
mod lasso;
mod refuting;

pub use checking::{
    check_solution_by_order, check_strategy, check_strategy_by_order, check_strategy_fast,
};
pub use lasso::Lasso;
pub use omega_game_reaching::{forward_part, part, parts_are_games, parts_keep_nodes};
pub use omega_game_values::{
    ForwardGame, Game, GameBuilder, GameFault, MOST_NODES, MOST_NUMBER, MOST_SUCCESSORS, NodeSpec,
    Player, PriorityCount, Refusal, Seq, Solution, Strategy, TaskFault, choices_are_entries,
    game_limits_are_stated, games_exist, games_have_no_fault, games_keep_limits,
    specifications_have_one_game,
};
pub use omega_lift_bound::bound;
pub use refuting::counterexample;
