//! Explains why the choices of a solution do not win.
ghost use Rattle.std.specs.Prelude.{◌≡◌, ◌++◌, IfNone, IfOk, IfSome, IsOkUnless, OnOk, true};
ghost use Rattle.omega_game_values.specs.Solution.{IsSolution, WinsGiven};
ghost use Rattle.omega_io.specs.Answer.{IsReply};
ghost use Rattle.omega_io.specs.declared.answer.Answer.TheVariants.{No};
ghost use Rattle.omega_answers_game.specs.Verify.{ArePlacesOf, IsSolutionVerdict, LosesGiven};
ghost use Rattle.omega_answers_game.specs.Verify.{explanation_lines, identifiers_text};

use crate::numbered::append_numbered;
use omega_game::{ForwardGame, Lasso, Player, Refusal, Solution, counterexample};
use omega_io::{Answer, Exit};
use omega_text::write_number;
use std::alloc::Global;

/// Returns the verdict on `solution`. A `no` is explained for the least player whose choices do not win as given.
pub(crate) fn explained_verdict(
    alloc: Global,
    game: &ForwardGame,
    solution: &Solution,
) -> Result<(Exit, Vec<u8>), Refusal>
    requires { IsSolution game.now solution.now }
    ensures verdict { IfOk result
        (λ made. IsSolutionVerdict game.now solution.now true made.0 made.1.items) }
    ensures memory { IsOkUnless result Refusal.Memory }
{
    if let Some(lasso) = lost_by(alloc, game, solution, Player::Zero)? {
        return explained_no(alloc, game, Player::Zero, lasso);
    }
    if let Some(lasso) = lost_by(alloc, game, solution, Player::One)? {
        return explained_no(alloc, game, Player::One, lasso);
    }
    Answer::Yes.reply(alloc)
}

/// Returns a counterexample to the choices of `player`: why they do not win from all nodes given to the player. Returns
/// none if they do.
pub fn lost_by(
    alloc: Global,
    game: &ForwardGame,
    solution: &Solution,
    player: Player,
) -> Result<Option<Lasso>, Refusal>
    requires { IsSolution game.now solution.now }
    ensures wins { IfOk result (λ found. IfNone found (WinsGiven game.now solution.now player)) }
    ensures loses { IfOk result (λ found. IfSome found (LosesGiven game.now solution.now player)) }
    ensures inside { IfOk result (λ found. IfSome found (λ lasso. ArePlacesOf game.now lasso.stem)) }
    ensures round { IfOk result (λ found. IfSome found (λ lasso. ArePlacesOf game.now lasso.cycle)) }
    ensures memory { IsOkUnless result Refusal.Memory }
{
    game.keeps_limits();
    let places = solution.places_given(alloc, player)?;
    let strategy = solution.strategy(player);
    let found = counterexample(alloc, game, player, places.as_slice(), strategy)?;
    Ok(found)
}

/// Returns the verdict `no` with its explanation. The lasso is dropped.
fn explained_no(
    alloc: Global,
    game: &ForwardGame,
    player: Player,
    lasso: Lasso,
) -> Result<(Exit, Vec<u8>), Refusal>
    requires stem { ArePlacesOf game.now lasso.stem }
    requires cycle { ArePlacesOf game.now lasso.cycle }
    ensures reply { IfOk result
        (λ made. IsReply (No (explanation_lines game.now player lasso)) made.0 made.1.items) }
    ensures memory { IsOkUnless result Refusal.Memory }
{
    let lines = explanation(alloc, game, player, &lasso)?;
    Answer::no_with(lines).reply(alloc)
}

/// Returns the lines that explain `no` by `lasso`.
fn explanation(
    alloc: Global,
    game: &ForwardGame,
    player: Player,
    lasso: &Lasso,
) -> Result<Vec<u8>, Refusal>
    requires stem { ArePlacesOf game.now lasso.now.stem }
    requires cycle { ArePlacesOf game.now lasso.now.cycle }
    ensures text { IfOk result (λ text. text.items ≡ explanation_lines game.now player lasso.now) }
    ensures memory { IsOkUnless result Refusal.Memory }
{
    let mut out = Vec::new(alloc);
    append_explanation(game, player, lasso, &mut out)?;
    Ok(out)
}

/// Appends the lines that explain `no` by `lasso`.
fn append_explanation(
    game: &ForwardGame,
    player: Player,
    lasso: &Lasso,
    out: &mut Vec<u8>,
) -> Result<(), Refusal>
    requires stem { ArePlacesOf game.now lasso.now.stem }
    requires cycle { ArePlacesOf game.now lasso.now.cycle }
    ensures text { OnOk result
        (out.new.items ≡ out.old.items ++ explanation_lines game.now player lasso.now) }
    ensures memory { IsOkUnless result Refusal.Memory }
{
    append_numbered(b"player ", u128::from(player.number()), out)?;
    append_places(game, b"\nstem", lasso.stem.as_slice(), out)?;
    append_places(game, b"\ncycle", lasso.cycle.as_slice(), out)?;
    out.extend_from_slice(b"\n")?;
    Ok(())
}

/// Appends `name`, and the identifiers of the nodes at `places`.
fn append_places(
    game: &ForwardGame,
    name: &[u8],
    places: &[u32],
    out: &mut Vec<u8>,
) -> Result<(), Refusal>
    requires { ArePlacesOf game.now places.now }
    ensures text { OnOk result
        (out.new.items ≡ out.old.items ++ (name.now ++ identifiers_text game.now places.now)) }
    ensures memory { IsOkUnless result Refusal.Memory }
{
    out.extend_from_slice(name)?;
    write_identifiers(game, places, out)
}

/// Appends the identifiers of the nodes at `places`, a space before each.
fn write_identifiers(game: &ForwardGame, places: &[u32], out: &mut Vec<u8>) -> Result<(), Refusal>
    requires { ArePlacesOf game.now places.now }
    ensures ok { OnOk result (out.new.items ≡ out.old.items ++ identifiers_text game.now places.now) }
    ensures memory { IsOkUnless result Refusal.Memory }
{
    for place in places {
        out.push(b' ')?;
        write_number(u128::from(game.id(*place)), out)?;
    }
    Ok(())
}
