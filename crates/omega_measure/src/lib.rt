//! Tables of small progress measures (Jurdziński 2000), one measure for each node of a game.
//!
//! docs/formats.md says when each refusal comes.
#![tactic(auto)]

mod cells;
mod due;
mod field;
mod fields;
mod kept;
mod limits;
mod losing;
mod packed;
mod plain;
mod shape;
mod table;
mod words;

pub use cells::fits;
pub use limits::{MOST_CELLS, measure_limits_are_stated};
pub use omega_game_values::{Game, Player, Refusal, TaskFault};
pub use packed::PackedTable;
pub use plain::PlainTable;
pub use table::MeasureTable;
