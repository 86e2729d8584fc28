use omega_game_values::{ForwardGame, Player, Refusal};

/// What is kept of the lines of a solution text, one after the other.
pub(crate) trait SolutionLines: Drop {
    ghost use Rattle.std.specs.Prelude.{List, [], ◌∷◌, ◌++◌, IsOkUnless, OnOk};
    ghost use Rattle.omega_game_values.specs.Game.{Node};
    ghost use Rattle.omega_pg.specs.solution.Grammar.{SolutionLine, line_for};

    /// Of these lines of a text for a game this is kept.
    ghost keeps: { List Node → List SolutionLine → Self → Type 0 };

    /// Adds the line of `id`, `winner` and `successor`.
    fn add(
        &mut self,
        game: &ForwardGame,
        id: u32,
        winner: Player,
        successor: Option<u32>,
    ) -> Result<(), Refusal>
        ensures kept { OnOk result ((lines : List SolutionLine) → keeps game.now lines self.old
            → keeps game.now (lines ++ line_for id winner successor ∷ []) self.new) }
        ensures memory { IsOkUnless result Refusal.Memory };
}
