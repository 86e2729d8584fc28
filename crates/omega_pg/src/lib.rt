//! Texts of parity games and of their solutions, read and written exactly.
//!
//! docs/formats.md says when each `Refusal` comes.
#![tactic(auto)]

mod game;
pub mod laws;
mod solution;

pub use game::reading::{read_forward_game, read_game};
pub use game::syntax::GameSyntax;
pub use game::writing::{write_game, write_game_with_priorities};
pub use omega_game_values::{
    ForwardGame, Game, GameFault, Player, Refusal, Seq, Solution, Strategy, TaskFault,
};
pub use solution::reading::read_solution;
pub use solution::syntax::SolutionSyntax;
pub use solution::winner_reading::read_winners;
pub use solution::writing::write_solution;
