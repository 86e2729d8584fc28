//! Games in which the least priority decides, written as games in which the greatest does.
ghost use Rattle.std.specs.Prelude.{◌≡◌, IfErr, IfOk, IsOkUnless};
ghost use Rattle.omega_text.specs.Cases.{or_memory};
ghost use Rattle.omega_pg.specs.game.Canonical.{canonical_game};
ghost use Rattle.omega_answers_game.specs.Turning.{turned_game};
ghost use Rattle.omega_answers_game.specs.Least.{IsCanonLeastAnswer};
ghost use Rattle.omega_answers_game.specs.Verify.{IsJudgedGameRefusal};

use crate::dropping::drop_game;
use crate::turned_priorities;
use crate::verify::judged_game;
use omega_game::{ForwardGame, Refusal};
use omega_pg::write_game_with_priorities;
use std::alloc::Global;

/// Reads the game of `text` as one in which the least priority that recurs decides. Returns the canonical text of the
/// equal game in which the greatest does: each player wins the same nodes by the same strategies, as the laws of
/// `omega_answers_game` say. If an identifier `from` is given, the game is the part that its node reaches.
///
/// Fails with the [Refusal::Text] or [Refusal::Game] of the text, or with [TaskFault::UnknownNode].
pub fn canon_least(alloc: Global, text: &[u8], from: Option<u32>) -> Result<Vec<u8>, Refusal>
    ensures answer { IfOk result (λ output. IsCanonLeastAnswer text.now from output.items) }
    ensures refused { IfErr result (or_memory (IsJudgedGameRefusal text.now from)) }
{
    let game = judged_game(alloc, text, from)?;
    let written = write_turned(alloc, &game);
    drop_game(game);
    written
}

/// Returns the canonical text of `game` with its priorities turned.
fn write_turned(alloc: Global, game: &ForwardGame) -> Result<Vec<u8>, Refusal>
    ensures text { IfOk result (λ text. text.items ≡ canonical_game (turned_game game.now)) }
    ensures memory { IsOkUnless result Refusal.Memory }
{
    let turned = turned_priorities(alloc, game)?;
    write_game_with_priorities(alloc, game, turned.as_slice())
}
