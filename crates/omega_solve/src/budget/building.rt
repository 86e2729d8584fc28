//! Builds the game with the same nodes at other places.
ghost use Rattle.std.specs.Prelude.{◌≡◌, ◌++◌, ◌∷◌, [], ◌<◌, length, IfOk, OnOk, IsOkUnless};
ghost use Rattle.omega_game_values.specs.Game.{IsGame, IsWithinLimits};
ghost use Rattle.omega_lift_schedules.specs.Permutation.{AreInverse};
ghost use Rattle.omega_solve.specs.budget.private.steps.Building.{spec_of};
ghost use Rattle.omega_solve.specs.budget.Reordering.{IsReordering};

use omega_game_values::{
    ForwardGame, Game, GameBuilder, Refusal, games_have_no_fault, specifications_have_one_game,
};
use omega_lift_schedules::Permutation;
use std::alloc::Global;

/// Builds the game with each node of `game` at its position.
pub(crate) fn reordered_game(
    alloc: Global,
    game: &ForwardGame,
    permutation: &Permutation,
) -> Result<Game, Refusal>
    requires positioned { length permutation.now.positions ≡ length game.now }
    ensures reordered { IfOk result (λ other.
        IsReordering game.now other permutation.now.positions permutation.now.places) }
    ensures memory { IsOkUnless result Refusal.Memory }
{
    games_have_no_fault();
    specifications_have_one_game();
    game.keeps_limits();
    let mut builder = GameBuilder::with_room(alloc, game.len(), game.edges())?;
    for position in 0..permutation.len() {
        add_positioned(&mut builder, game, permutation, position)?;
    }
    builder.finish()
}

/// Adds the specification of the node with `position`.
fn add_positioned(
    builder: &mut GameBuilder,
    game: &ForwardGame,
    permutation: &Permutation,
    position: u32,
) -> Result<(), Refusal>
    requires game { IsGame game.now }
    requires limits { IsWithinLimits game.now }
    requires positioned { length permutation.now.positions ≡ length game.now }
    requires placed { length permutation.now.places ≡ length game.now }
    requires inverse { AreInverse permutation.now.positions permutation.now.places }
    requires position { position < length game.now }
    ensures ok { OnOk result (builder.new ≡ builder.old
        ++ spec_of game.now permutation.now.positions permutation.now.places position ∷ []) }
    ensures memory { IsOkUnless result Refusal.Memory }
{
    let place = permutation.place(position);
    let successors = game.successors(place);
    let first = permutation.position(successors[0]);
    builder.add_node(position, game.priority(place), game.owner(place), first)?;
    for index in 1..successors.len() {
        let next = permutation.position(successors[index]);
        builder.add_successor(next)?;
    }
    Ok(())
}
