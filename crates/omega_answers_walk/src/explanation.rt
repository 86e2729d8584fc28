//! Explanations with names.
ghost use Rattle.std.specs.Prelude.{◌≡◌, ◌++◌, ◌<◌, true, IfOk, IsOkUnless};
ghost use Rattle.std.specs.Prelude.{OnOk, codes, decimal, length, option_map};
ghost use Rattle.omega_answers_game.specs.Verify.{ArePlacesOf};
ghost use Rattle.omega_game_values.specs.Game.{identifier_at};
ghost use Rattle.omega_answers_walk.specs.Written.{name_after, name_if, nodes_text, walk_text};
ghost use Rattle.omega_io.specs.Answer.{IsReply};
ghost use Rattle.omega_io.specs.declared.answer.Answer.TheVariants.{No};

use omega_game::{ForwardGame, Lasso, Player};
use omega_io::{Answer, Exit};
use omega_text::{Refusal, write_number};
use std::alloc::Global;

/// Returns the verdict `no` with its explanation: the nodes of `lasso` by their identifiers and names.
pub(crate) fn explained_no(
    alloc: Global,
    game: &ForwardGame,
    player: Player,
    lasso: &Lasso,
) -> Result<(Exit, Vec<u8>), Refusal>
    requires stem { ArePlacesOf game.now lasso.now.stem }
    requires cycle { ArePlacesOf game.now lasso.now.cycle }
    ensures reply { IfOk result (λ made.
        IsReply (No (walk_text true game.now player lasso.now.stem lasso.now.cycle)) made.0 made.1.items) }
    ensures memory { IsOkUnless result Refusal.Memory }
{
    let lines = explanation(alloc, game, player, lasso)?;
    Answer::no_with(lines).reply(alloc)
}

/// Returns the lines that explain `no`: the player, and the nodes of the stem and of the cycle of `lasso`.
fn explanation(
    alloc: Global,
    game: &ForwardGame,
    player: Player,
    lasso: &Lasso,
) -> Result<Vec<u8>, Refusal>
    requires stem { ArePlacesOf game.now lasso.now.stem }
    requires cycle { ArePlacesOf game.now lasso.now.cycle }
    ensures lines { IfOk result
        (λ lines. lines.items ≡ walk_text true game.now player lasso.now.stem lasso.now.cycle) }
    ensures memory { IsOkUnless result Refusal.Memory }
{
    let mut out = Vec::new(alloc);
    out.extend_from_slice(b"player ")?;
    write_number(u128::from(player.number()), &mut out)?;
    out.extend_from_slice(b"\nstem")?;
    write_nodes(game, lasso.stem.as_slice(), &mut out)?;
    out.extend_from_slice(b"\ncycle")?;
    write_nodes(game, lasso.cycle.as_slice(), &mut out)?;
    out.extend_from_slice(b"\n")?;
    Ok(out)
}

/// Appends the nodes at `places`, each by its identifier after a space, and by its name if it has one.
fn write_nodes(game: &ForwardGame, places: &[u32], out: &mut Vec<u8>) -> Result<(), Refusal>
    requires { ArePlacesOf game.now places.now }
    ensures ok { OnOk result (out.new.items ≡ out.old.items ++ nodes_text true game.now places.now) }
    ensures memory { IsOkUnless result Refusal.Memory }
{
    for place in places {
        write_node(game, *place, out)?;
    }
    Ok(())
}

/// Appends the node at `place` by its identifier after a space, and by its name if it has one.
fn write_node(game: &ForwardGame, place: u32, out: &mut Vec<u8>) -> Result<(), Refusal>
    requires { place < length game.now }
    ensures ok { OnOk result (out.new.items ≡ out.old.items
        ++ (codes " " ++ (decimal (identifier_at game.now place) ++ name_if true game.now place))) }
    ensures memory { IsOkUnless result Refusal.Memory }
{
    out.push(b' ')?;
    write_number(u128::from(game.id(place)), out)?;
    write_name(game.name(place), out)
}

/// Appends `name` between double quotes, after a space, if there is one.
fn write_name(name: Option<&[u8]>, out: &mut Vec<u8>) -> Result<(), Refusal>
    ensures ok { OnOk result
        (out.new.items ≡ out.old.items ++ name_after (option_map (λ name. name.now) name.entry)) }
    ensures memory { IsOkUnless result Refusal.Memory }
{
    if let Some(name) = name {
        out.extend_from_slice(b" \"")?;
        out.extend_from_slice(name)?;
        out.push(b'"')?;
    }
    Ok(())
}
