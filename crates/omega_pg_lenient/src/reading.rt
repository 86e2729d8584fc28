ghost use Rattle.std.specs.Prelude.{◌≡◌, ◌<◌, ◌≤◌, length, None, IfErr, IfOk, OnOk};
ghost use Rattle.omega_text.specs.Limits.{most_text};
ghost use Rattle.omega_game_values.specs.Building.{IsBuildRefusal, IsGameOf};
ghost use Rattle.omega_game_values.specs.Game.{IsWithinLimits};
ghost use Rattle.omega_pg_lenient.specs.Plain.{plain_text};
ghost use Rattle.omega_pg_lenient.specs.Refusing.{IsLenientReadRefusal};
ghost use Rattle.omega_pg_lenient.specs.Text.{IsLenientGameText};

use crate::kind::LenientKind;
use crate::laws::plain_texts_keep_places;
use crate::plain::plain_text;
use crate::reader::LenientReader;
use omega_game_values::{ForwardGame, Game, GameBuilder, Refusal};
use omega_text::{MOST_TEXT, TextFault, read_text};
use std::alloc::Global;

/// Reads the game of a text in PGSolver's format as other tools write it. Refused with a `TextFault`, a `GameFault` or
/// [Refusal::Memory].
///
/// Comments and a byte order mark are white space, a header and `start` say nothing, the last `;` may be missing, and a
/// byte that a name of a game may not have is read as `?`. A node without successors loses for its owner: it is read as
/// its only successor, with priority 1 for player 0 and 0 for player 1.
///
/// Places are those of `text`. A fault of tokens comes before one of syntax, wherever it is, and both come before a
/// fault of the specifications. The cost is linear in the text, of which a copy is made.
pub fn read_lenient_game(alloc: Global, text: &[u8]) -> Result<Game, Refusal>
    ensures game { IfOk result (IsLenientGameText text.now) }
    ensures refused { IfErr result (IsLenientReadRefusal text.now) }
{
    let forward = read_lenient_forward_game(alloc, text)?;
    forward.with_predecessors(alloc)
}

/// Reads a game as `read_lenient_game` does, without its predecessors and without the time and memory that they take.
pub fn read_lenient_forward_game(alloc: Global, text: &[u8]) -> Result<ForwardGame, Refusal>
    ensures game { IfOk result (IsLenientGameText text.now) }
    ensures refused { IfErr result (IsLenientReadRefusal text.now) }
{
    let plain = plain_within_limit(alloc, text)?;
    let reader = read_text::<LenientKind, LenientReader>(
        LenientReader::new(alloc),
        plain.as_slice(),
    )?;
    let specs = reader.specs_at_end()?;
    game_of_specs(specs)
}

/// Returns the plain text of `text`, or refuses one that is too long before any memory is taken for it.
fn plain_within_limit(alloc: Global, text: &[u8]) -> Result<Vec<u8>, Refusal>
    ensures plain { IfOk result (λ plain. plain.items ≡ plain_text text.now) }
    ensures short { OnOk result (length text.now ≤ most_text) }
    ensures refused { IfErr result (IsLenientReadRefusal text.now) }
{
    plain_texts_keep_places();
    if text.len() > MOST_TEXT {
        return Err(Refusal::Text(TextFault::TooLong));
    }
    plain_text(alloc, text)
}

/// Builds the game of `specs`.
fn game_of_specs(specs: GameBuilder) -> Result<ForwardGame, Refusal>
    requires { 0 < length specs }
    ensures game { IfOk result (IsGameOf specs) }
    ensures limits { IfOk result IsWithinLimits }
    ensures refused { IfErr result (IsBuildRefusal specs) }
{
    specs.finish_forward()
}
