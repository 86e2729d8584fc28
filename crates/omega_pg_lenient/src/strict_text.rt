ghost use Rattle.std.specs.Prelude.{IfErr, IfOk};
ghost use Rattle.omega_pg_lenient.specs.Refusing.{IsLenientReadRefusal};
ghost use Rattle.omega_pg_lenient.specs.StrictText.{IsStrictGameText};

use crate::reading::read_lenient_forward_game;
use omega_game_values::Refusal;
use omega_pg::write_game;
use std::alloc::Global;

/// Returns the canonical text of the game that a lenient text describes. Refused as `read_lenient_game` refuses.
///
/// It may have more bytes than `omega_text::MOST_TEXT`, since dead ends get a successor and numbers lose no digit: a
/// reader of strict texts refuses it then. The cost is linear in both texts.
pub fn strict_game_text(alloc: Global, text: &[u8]) -> Result<Vec<u8>, Refusal>
    ensures text { IfOk result (λ made. IsStrictGameText text.now made.items) }
    ensures refused { IfErr result (IsLenientReadRefusal text.now) }
{
    let game = read_lenient_forward_game(alloc, text)?;
    write_game(alloc, &game)
}
