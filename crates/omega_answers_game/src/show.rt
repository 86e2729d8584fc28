ghost use Rattle.std.specs.Prelude.{◌≡◌, ◌++◌, IfOk, IfErr, OnOk, IsOkUnless};
ghost use Rattle.omega_game_values.specs.Bound.{bound_of};
ghost use Rattle.omega_game_values.specs.Game.{priorities};
ghost use Rattle.omega_pg.specs.game.Refusing.{IsReadRefusal};
ghost use Rattle.omega_answers_game.specs.Show.{IsShowAnswer, bound_line, bound_text, description, size_line};

pub mod json;

use crate::dropping::drop_game;
use crate::numbered::append_numbered;
use crate::player_text::append_player;
use omega_game::{ForwardGame, Player, Refusal};
use omega_lift_bound::bound;
use omega_pg::read_forward_game;
use std::alloc::Global;

/// Returns the size of the game of `text`, and the bounds on lifts. Fails with the [Refusal::Text] or [Refusal::Game]
/// of the text.
pub fn show_game(alloc: Global, text: &[u8]) -> Result<Vec<u8>, Refusal>
    ensures answer { IfOk result (λ output. IsShowAnswer text.now output.items) }
    ensures refused { IfErr result (IsReadRefusal text.now) }
{
    let game = read_forward_game(alloc, text)?;
    let described = describe(alloc, &game);
    drop_game(game);
    described
}

fn describe(alloc: Global, game: &ForwardGame) -> Result<Vec<u8>, Refusal>
    ensures text { IfOk result (λ output. output.items ≡ description game.now) }
    ensures memory { IsOkUnless result Refusal.Memory }
{
    let mut out = Vec::new(alloc);
    append_size(game, &mut out)?;
    append_bound(game, Player::Zero, &mut out)?;
    append_bound(game, Player::One, &mut out)?;
    Ok(out)
}

fn append_size(game: &ForwardGame, out: &mut Vec<u8>) -> Result<(), Refusal>
    ensures text { OnOk result (out.new.items ≡ out.old.items ++ size_line game.now) }
    ensures memory { IsOkUnless result Refusal.Memory }
{
    let nodes = game.len();
    let greatest = game.id((nodes - 1) as u32);
    append_numbered(b"game nodes ", nodes as u128, out)?;
    append_numbered(b" edges ", game.edges() as u128, out)?;
    append_numbered(b" greatest ", u128::from(greatest), out)?;
    out.extend_from_slice(b"\n")?;
    Ok(())
}

fn append_bound(game: &ForwardGame, player: Player, out: &mut Vec<u8>) -> Result<(), Refusal>
    ensures text { OnOk result (out.new.items ≡ out.old.items ++ bound_line player game.now) }
    ensures memory { IsOkUnless result Refusal.Memory }
{
    append_player(player, out)?;
    out.extend_from_slice(b" ")?;
    append_lifts(game, player, out)?;
    out.extend_from_slice(b"\n")?;
    Ok(())
}

/// Appends the bound on lifts of `player`, or that it takes more than 128 bits.
fn append_lifts(game: &ForwardGame, player: Player, out: &mut Vec<u8>) -> Result<(), Refusal>
    ensures text { OnOk result
        (out.new.items ≡ out.old.items ++ bound_text (bound_of player (priorities game.now))) }
    ensures memory { IsOkUnless result Refusal.Memory }
{
    match bound(game, player) {
        Some(lifts) => append_numbered(b"bound ", lifts, out),
        None => Ok(out.extend_from_slice(b"bound over 128 bits")?),
    }
}
