//! The plain test: whether a place that is reached bears a losing priority and recurs.
ghost use Rattle.std.specs.Prelude.{◌≡◌, ◌↔◌, ◌<◌, length, IfOk, IsTrue};
ghost use Rattle.omega_game_reaching.specs.Reaching.{LeadsInside};
ghost use Rattle.omega_game.specs.private.checking.Decision.{IsRightDecision};
ghost use Rattle.omega_game.specs.private.checking.Recurring.{Recurs};

use crate::checking::decision::Decision;
use omega_game_reaching::{edges_left, reached_from};
use omega_game_values::{ForwardGame, Player};
use std::alloc::{AllocError, Global};

/// Whether a place is reached again after itself through priorities at most its own.
pub(crate) fn recurs(
    alloc: Global,
    game: &ForwardGame,
    choices: &[Option<u32>],
    place: u32,
) -> Result<bool, AllocError>
    requires inside { place < length game.now }
    requires choices { LeadsInside game.now choices.now }
    ensures recurs { IfOk result (λ answer. IsTrue answer ↔ Recurs game.now choices.now place) }
{
    let left = edges_left(game, choices, place);
    let marks = reached_from(alloc, game, choices, game.priority(place), left)?;
    Ok(marks[place as usize])
}

/// Decides whether no marked place of a priority that loses for the player recurs. One search for each such place.
pub(crate) fn decide_plainly(
    alloc: Global,
    game: &ForwardGame,
    player: Player,
    choices: &[Option<u32>],
    marks: &[bool],
) -> Result<Decision, AllocError>
    requires count { length marks.now ≡ length game.now }
    requires choices { LeadsInside game.now choices.now }
    ensures right { IfOk result (IsRightDecision game.now player choices.now marks.now) }
{
    for place in 0..game.len() as u32 {
        let losing = marks[place as usize] && player.loses(game.priority(place));
        if losing && recurs(alloc, game, choices, place)? {
            return Ok(Decision::Loses(place));
        }
    }
    Ok(Decision::Wins)
}
