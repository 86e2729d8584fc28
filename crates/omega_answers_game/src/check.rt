ghost use Rattle.std.specs.Prelude.{◌≡◌, IfOk, IfErr, IsOkUnless, codes};
ghost use Rattle.omega_pg.specs.game.Refusing.{IsReadRefusal};
ghost use Rattle.omega_answers_game.specs.Check.{IsCheckAnswer};

use crate::dropping::drop_game;
use omega_game::Refusal;
use omega_pg::read_forward_game;
use std::alloc::Global;

/// Returns `accepted` if `text` is the text of a game. Fails with the [Refusal::Text] or [Refusal::Game] of the text.
pub fn check_game(alloc: Global, text: &[u8]) -> Result<Vec<u8>, Refusal>
    ensures answer { IfOk result (λ output. IsCheckAnswer text.now output.items) }
    ensures refused { IfErr result (IsReadRefusal text.now) }
{
    let game = read_forward_game(alloc, text)?;
    drop_game(game);
    accepted_line(alloc)
}

/// Returns the output for a text that is accepted.
fn accepted_line(alloc: Global) -> Result<Vec<u8>, Refusal>
    ensures text { IfOk result (λ output. output.items ≡ codes "accepted\n") }
    ensures memory { IsOkUnless result Refusal.Memory }
{
    Ok(Vec::from_slice(alloc, b"accepted\n")?)
}
