ghost use Rattle.std.specs.Prelude.{◌≡◌, ◌<◌, List, length, true, None, IfOk, IfErr};
ghost use Rattle.omega_game_values.specs.Building.{IsBuildRefusal, IsGameOf, fault_with};
ghost use Rattle.omega_game_values.specs.declared.node_spec.NodeSpec.{NodeSpec};
ghost use Rattle.omega_game_values.specs.Game.{IsWithinLimits};
ghost use Rattle.omega_pg.specs.private.game.reader.Built.{IsBuiltRefusal};
ghost use Rattle.omega_pg.specs.game.Refusing.{IsReadRefusal};
ghost use Rattle.omega_pg.specs.game.Text.{IsGameText};

use crate::game::reader::GameReader;
use omega_game_values::{ForwardGame, Game, GameBuilder, GameFault, Refusal};
use omega_text::{PgKind, read_text};
use std::alloc::Global;

/// Reads the game of a text in PGSolver's format. Refused with a `TextFault`, a `GameFault` or [Refusal::Memory].
///
/// The bytes are read once, from the left. A fault of tokens comes before one of syntax, wherever it is, and both come
/// before a fault of the specifications.
///
/// Each text has either a game or a refusal, and only one: in `laws`, `games_of_texts_are_one`, `refusals_are_one`,
/// `games_are_not_refused` and `texts_are_read_or_refused`. The place of [TextFault::Syntax] has the law
/// `syntax_faults_are_first`.
pub fn read_game(alloc: Global, bytes: &[u8]) -> Result<Game, Refusal>
    ensures game { IfOk result (IsGameText bytes.now) }
    ensures refused { IfErr result (IsReadRefusal bytes.now) }
{
    let forward = read_forward_game(alloc, bytes)?;
    forward.with_predecessors(alloc)
}

/// Reads a game as `read_game` does, without its predecessors and without the time and memory that they take.
pub fn read_forward_game(alloc: Global, bytes: &[u8]) -> Result<ForwardGame, Refusal>
    ensures game { IfOk result (IsGameText bytes.now) }
    ensures refused { IfErr result (IsReadRefusal bytes.now) }
{
    let reader = read_text::<PgKind, GameReader>(GameReader::new(alloc), bytes)?;
    let GameReader {
        specs,
        header_too_small,
        ..
    } = reader;
    game_of_specs(specs, header_too_small)
}

/// Builds the game of `specs`. If the number of the header is `too_small`, refused with [GameFault::HeaderTooSmall]
/// unless another fault comes first.
fn game_of_specs(specs: GameBuilder, too_small: bool) -> Result<ForwardGame, Refusal>
    requires { 0 < length specs }
    ensures game { IfOk result (IsGameOf specs) }
    ensures limits { IfOk result IsWithinLimits }
    ensures faultless { IfOk result (λ _. fault_with too_small specs ≡ None) }
    ensures refused { IfErr result (IsBuiltRefusal too_small specs) }
{
    if !too_small {
        return specs.finish_forward();
    }
    match specs.finish_forward() {
        Ok(_forward) => Err(Refusal::Game(GameFault::HeaderTooSmall)),
        Err(refusal) => Err(first_of(refusal)),
    }
}

/// Returns whichever comes first: `refusal`, or [GameFault::HeaderTooSmall].
fn first_of(refusal: Refusal) -> Refusal
    ensures { (specs : List NodeSpec) → IsBuildRefusal specs refusal
        → IsBuiltRefusal true specs result }
{
    match refusal {
        Refusal::Game(GameFault::TooManyNodes | GameFault::TooManyEdges) => {
            Refusal::Game(GameFault::HeaderTooSmall)
        },
        other => other,
    }
}
