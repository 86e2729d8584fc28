ghost use Rattle.std.specs.Prelude.{IfOk, IfErr};
ghost use Rattle.omega_text.specs.Cases.{or_memory};
ghost use Rattle.omega_answers_game.specs.Part.{IsPartTextRefusal};
ghost use Rattle.omega_answers_game.specs.Canon.{IsCanonPartAnswer};

use crate::dropping::drop_game;
use crate::verify::judged_part;
use omega_game::Refusal;
use omega_pg::write_game;
use std::alloc::Global;

/// Returns the canonical text of the part that the node with the identifier `from` reaches in the game of `text`. Fails
/// with the [Refusal::Text] or [Refusal::Game] of the text, or with [TaskFault::UnknownNode].
pub fn canon_part(alloc: Global, text: &[u8], from: u32) -> Result<Vec<u8>, Refusal>
    ensures answer { IfOk result (λ output. IsCanonPartAnswer text.now from output.items) }
    ensures refused { IfErr result (or_memory (IsPartTextRefusal text.now from)) }
{
    let part = judged_part(alloc, text, from)?;
    let written = write_game(alloc, &part);
    drop_game(part);
    written
}
