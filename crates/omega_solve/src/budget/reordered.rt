ghost use Rattle.std.specs.Prelude.{◌≡◌, IfOk, IsOkUnless};
ghost use Rattle.omega_game_values.specs.Game.{IsGame};

use crate::budget::building::reordered_game;
use omega_game_values::{ForwardGame, Game, Refusal};
use omega_lift_schedules::Permutation;
use std::alloc::Global;
use std::marker::Model;

/// A game, and another with the same nodes in the order in which a solver lifts them. In that order rows, successors
/// and predecessors lie in the order of work. Answers are by the places of the original game. One reordering serves
/// both players.
#[derive(Drop)]
pub struct Reordered<'g> {
    given: &'g ForwardGame,
    permutation: Permutation,
    other: Game,
}

impl<'g> Model for Reordered<'g> {
    ghost use Rattle.omega_solve.specs.budget.Reordering.{IsReordered, Reordering};

    ghost Value = { Reordering };

    ghost view = { λ a. record {
      given = a.given.now;
      reordered = a.other;
      positions = a.permutation.positions;
      places = a.permutation.places;
    } };

    ghost invariant = { λ a. IsReordered (record {
      given = a.given.now;
      reordered = a.other;
      positions = a.permutation.positions;
      places = a.permutation.places;
    }) };
}

impl<'g> Reordered<'g> {
    ghost use Rattle.omega_solve.specs.budget.Reordering.{IsReordered};

    /// Reorders `game` so that few lifts are made. Takes about 3 (n + m) steps for n nodes and m edges, and the memory
    /// of the reordered game with its predecessors.
    pub fn of(alloc: Global, game: &'g ForwardGame) -> Result<Reordered<'g>, Refusal>
        ensures given { IfOk result (λ reordering. reordering.given ≡ game.entry.now) }
        ensures reordered { IfOk result IsReordered }
        ensures memory { IsOkUnless result Refusal.Memory }
    {
        let permutation = Permutation::nested_order(alloc, game)?;
        let other = reordered_game(alloc, game, &permutation)?;
        Ok(Reordered {
            given: game,
            permutation,
            other,
        })
    }

    /// Returns the original game.
    pub(crate) fn original_game(&self) -> &ForwardGame
        ensures { result.now ≡ self.now.given }
    {
        self.given
    }

    /// Hands on to the proof that the reordered game has the nodes of the original, each at its position. Does nothing
    /// when run.
    pub(crate) fn keeps_nodes(&self)
        ensures reordered { IsReordered self.now }
        ensures game { IsGame self.now.given }
    {
        self.given.keeps_limits();
    }

    /// Returns the reordered game, which is the one that is solved.
    pub(crate) fn reordered_game(&self) -> &Game
        ensures { result.now ≡ self.now.reordered }
    {
        &self.other
    }

    /// Returns the position of each node in the reordered game.
    pub(crate) fn permutation(&self) -> &Permutation
        ensures positions { result.now.positions ≡ self.now.positions }
        ensures places { result.now.places ≡ self.now.places }
    {
        &self.permutation
    }
}
