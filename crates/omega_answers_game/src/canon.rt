ghost use Rattle.std.specs.Prelude.{◌≡◌, IfOk, IfErr};
ghost use Rattle.omega_pg.specs.game.Refusing.{IsReadRefusal};
ghost use Rattle.omega_answers_game.specs.Canon.{IsCanonAnswer};

pub mod least;
pub mod part;

use crate::dropping::drop_game;
use omega_game::Refusal;
use omega_pg::{read_forward_game, write_game};
use std::alloc::Global;

/// Returns the canonical text of the game of `text`. Fails with the [Refusal::Text] or [Refusal::Game] of the text.
pub fn canon_game(alloc: Global, text: &[u8]) -> Result<Vec<u8>, Refusal>
    ensures answer { IfOk result (λ output. IsCanonAnswer text.now output.items) }
    ensures refused { IfErr result (IsReadRefusal text.now) }
{
    let game = read_forward_game(alloc, text)?;
    let written = write_game(alloc, &game);
    drop_game(game);
    written
}
