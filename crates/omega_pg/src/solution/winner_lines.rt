ghost use Rattle.std.specs.Prelude.{◌≡◌, ◌↔◌, [], true, IfErr, IfOk, IsTrue};
ghost use Rattle.omega_pg.specs.private.solution.winners.Lines.{IsNext};

use crate::solution::solution_lines::SolutionLines;
use omega_game_values::{ForwardGame, Player, Refusal, TaskFault};
use std::alloc::Global;

/// The winners of the lines of a solution text, by place.
#[derive(Drop)]
pub(crate) struct WinnerLines {
    /// Whether each line so far names the node at its place. If not, no further winner is kept.
    pub(crate) good: bool,
    pub(crate) winners: Vec<Player>,
}

impl WinnerLines {
    ghost use Rattle.std.specs.Prelude.{List};
    ghost use Rattle.omega_text.specs.declared.refusal.Refusal.TheVariants.{Task};
    ghost use Rattle.omega_text.specs.declared.refusal.task.TaskFault.TheVariants.{BadSolution};
    ghost use Rattle.omega_pg.specs.solution.Grammar.{SolutionLine};
    ghost use Rattle.omega_pg.specs.solution.Winners.{NamesNodes, NamesOthers, winners_of};
    ghost use Rattle.omega_pg.specs.private.solution.winners.Lines.{KeepsWinners};

    /// Makes an empty list of lines.
    pub(crate) fn new(alloc: Global) -> Self
        ensures good { result.good ≡ true }
        ensures winners { result.winners.items ≡ [] }
    {
        WinnerLines {
            good: true,
            winners: Vec::new(alloc),
        }
    }

    /// Returns the winners of the lines after a header with the number `greatest`. Refused with
    /// [TaskFault::BadSolution] if these do not name the nodes of `game`.
    pub(crate) fn finish(self, game: &ForwardGame, greatest: u32) -> Result<Vec<Player>, Refusal>
        ensures named { (lines : List SolutionLine) → KeepsWinners game.now lines self
            → IfOk result (λ _. NamesNodes game.now (record { greatest = greatest; lines = lines })) }
        ensures winners { (lines : List SolutionLine) → KeepsWinners game.now lines self
            → IfOk result (λ winners. winners.items ≡ winners_of lines) }
        ensures refusal { IfErr result (λ refusal. refusal ≡ Task BadSolution) }
        ensures others { (lines : List SolutionLine) → KeepsWinners game.now lines self
            → IfErr result (λ _. NamesOthers game.now (record { greatest = greatest; lines = lines })) }
    {
        let nodes = game.len();
        if !self.good || self.winners.len() != nodes || game.id(nodes as u32 - 1) != greatest {
            return Err(Refusal::Task(TaskFault::BadSolution));
        }
        Ok(self.winners)
    }
}

impl SolutionLines for WinnerLines {
    ghost use Rattle.omega_pg.specs.private.solution.winners.Lines.{KeepsWinners};

    ghost keeps = { KeepsWinners };

    /// Adds the line of `id` and `winner`, whatever its successor. The winner is kept if the line names the next node
    /// of `game`, and if so did all before.
    fn add(
        &mut self,
        game: &ForwardGame,
        id: u32,
        winner: Player,
        _successor: Option<u32>,
    ) -> Result<(), Refusal> {
        if !self.good {
            return Ok(());
        }
        if !is_next(game, self.winners.len(), id) {
            self.good = false;
            return Ok(());
        }
        self.winners.push(winner)?;
        Ok(())
    }
}

/// Whether the node at `place` is there and has the identifier.
fn is_next(game: &ForwardGame, place: usize, id: u32) -> bool
    ensures { IsTrue result ↔ IsNext game.now place id }
{
    place < game.len() && game.id(place as u32) == id
}
