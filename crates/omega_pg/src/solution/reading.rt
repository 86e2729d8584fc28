ghost use Rattle.std.specs.Prelude.{IfErr, IfOk};
ghost use Rattle.omega_pg.specs.solution.Refusing.{IsReadSolutionRefusal};
ghost use Rattle.omega_pg.specs.solution.Text.{IsSolutionText};

use crate::solution::lines::ChoiceLines;
use crate::solution::reader::SolutionReader;
use omega_game_values::{ForwardGame, Refusal, Solution};
use omega_text::{PgKind, read_text};
use std::alloc::Global;

/// Reads the solution of `game` that a text describes. Refused with a `TextFault`, [TaskFault::BadSolution] or
/// [Refusal::Memory].
///
/// The bytes are read once, from the left. A fault of tokens comes before one of syntax, wherever it is, and both come
/// before [TaskFault::BadSolution], whose reasons are those of `IsNoSolution`. The cost is linear in the text and the
/// game.
///
/// Each text has either a solution of the game or a refusal, and only one: in `laws`, `solutions_of_texts_are_one`,
/// `solution_refusals_are_one`, `solutions_are_not_refused` and `solution_texts_are_read_or_refused`. The place of
/// [TextFault::Syntax] has the law `solution_syntax_faults_are_first`, and [TaskFault::BadSolution] the law
/// `reasons_are_exact`.
pub fn read_solution(alloc: Global, game: &ForwardGame, bytes: &[u8]) -> Result<Solution, Refusal>
    ensures solution { IfOk result (IsSolutionText game.now bytes.now) }
    ensures refused { IfErr result (IsReadSolutionRefusal game.now bytes.now) }
{
    let SolutionReader {
        greatest,
        lines,
        ..
    } = read_text::<PgKind, SolutionReader<ChoiceLines>>(
        SolutionReader::new(game, ChoiceLines::new(alloc)),
        bytes,
    )?;
    lines.finish(game, greatest)
}
