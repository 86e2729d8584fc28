ghost use Rattle.std.specs.Prelude.{IfErr, IfOk};
ghost use Rattle.omega_pg.specs.solution.Winners.{IsReadWinnersRefusal, IsWinnersText};

use crate::solution::reader::SolutionReader;
use crate::solution::winner_lines::WinnerLines;
use omega_game_values::{ForwardGame, Player, Refusal};
use omega_text::{PgKind, read_text};
use std::alloc::Global;

/// Reads the winners that a solution text gives to the nodes of `game`, by place. Successors are passed over. Refused
/// with a `TextFault`, [TaskFault::BadSolution] or [Refusal::Memory].
///
/// The refusals are those of `read_solution` but for [TaskFault::BadSolution]: it comes if the header's number is not
/// the greatest identifier, or if the lines do not name each node once in rising order. The cost is linear in the text
/// and the game.
pub fn read_winners(alloc: Global, game: &ForwardGame, bytes: &[u8]) -> Result<Vec<Player>, Refusal>
    ensures winners { IfOk result (λ winners. IsWinnersText game.now bytes.now winners.items) }
    ensures refused { IfErr result (IsReadWinnersRefusal game.now bytes.now) }
{
    let SolutionReader {
        greatest,
        lines,
        ..
    } = read_text::<PgKind, SolutionReader<WinnerLines>>(
        SolutionReader::new(game, WinnerLines::new(alloc)),
        bytes,
    )?;
    lines.finish(game, greatest)
}
