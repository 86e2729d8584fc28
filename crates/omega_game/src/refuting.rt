//! Why a strategy does not win, without a solver.
ghost use Rattle.std.specs.Prelude.{◌↔◌, ◌<◌, length, All, IfOk, IfSome, IsNone, IsOkUnless};
ghost use Rattle.omega_game_values.specs.Winning.{IsStrategy};
ghost use Rattle.omega_game_reaching.specs.Reaching.{LeadsInside};
ghost use Rattle.omega_game.specs.Checking.{WinsFrom};
ghost use Rattle.omega_game.specs.Counterexample.{IsCounterexample};
ghost use Rattle.omega_game.specs.private.checking.Recurring.{Recurs};
ghost use Rattle.omega_game.specs.private.refuting.Ways.{IsCycle};

mod breadth;
mod ways;

use crate::checking::deciding::decide;
use crate::checking::decision::Decision;
use crate::following::followed_from;
use crate::lasso::Lasso;
use omega_game_reaching::edges_left;
use omega_game_values::{ForwardGame, Player, Strategy};
use omega_text::{Refusal, Seq};
use std::alloc::{AllocError, Global};
use ways::way_to;

/// Returns why a strategy of the player does not win from each of the places: a walk from one of them that the strategy
/// leaves possible, to a cycle on which the player loses. The places may come in any order and repeatedly. Returns
/// `None` exactly if the strategy wins from each, and [`Refusal::Memory`] if a request for memory is refused.
///
/// The decision is that of `check_strategy`, at its cost, and rests on a place of a losing priority that comes back to
/// itself. The cycle begins there. The stem is a shortest walk to it from one of the places, and the cycle a shortest
/// one through no greater priority, so that it visits no place twice. Both are found by searches in breadth, linear in
/// nodes and edges.
pub fn counterexample(
    alloc: Global,
    game: &ForwardGame,
    player: Player,
    places: &[u32],
    strategy: &Strategy,
) -> Result<Option<Lasso>, Refusal>
    requires places { All (λ place. place < length game.now) places.now }
    requires fits { IsStrategy game.now player strategy.now.choice }
    ensures none { IfOk result
        (λ found. IsNone found ↔ WinsFrom game.now player strategy.now.choice places.now) }
    ensures lasso { IfOk result (λ found. IfSome found
        (IsCounterexample game.now player strategy.now.choice places.now)) }
    ensures memory { IsOkUnless result Refusal.Memory }
{
    let found = lasso_against(alloc, game, player, places, strategy.choice.as_slice())?;
    Ok(found)
}

/// Returns a lasso that shows why choices that are a strategy of the player do not win, or `None` if they do.
fn lasso_against(
    alloc: Global,
    game: &ForwardGame,
    player: Player,
    places: &[u32],
    choices: &[Option<u32>],
) -> Result<Option<Lasso>, AllocError>
    requires places { All (λ place. place < length game.now) places.now }
    requires strategy { IsStrategy game.now player choices.now }
    ensures none { IfOk result
        (λ found. IsNone found ↔ WinsFrom game.now player choices.now places.now) }
    ensures lasso { IfOk result
        (λ found. IfSome found (IsCounterexample game.now player choices.now places.now)) }
{
    game.keeps_limits();
    let marks = followed_from(alloc, game, choices, places)?;
    match decide(alloc, game, player, choices, &marks)? {
        Decision::Wins => Ok(None),
        Decision::Loses(place) => {
            let stem = way_to(alloc, game, choices, u32::MAX, places, place)?;
            let cycle = cycle_at(alloc, game, choices, place)?;
            Ok(Some(Lasso {
                stem: Seq::from_vec(stem),
                cycle: Seq::from_vec(cycle),
            }))
        }
    }
}

/// Returns a place that recurs, and the places before it on a shortest way from it to itself.
fn cycle_at(
    alloc: Global,
    game: &ForwardGame,
    choices: &[Option<u32>],
    place: u32,
) -> Result<Vec<u32>, AllocError>
    requires inside { place < length game.now }
    requires choices { LeadsInside game.now choices.now }
    requires recurs { Recurs game.now choices.now place }
    ensures cycle { IfOk result (λ cycle. IsCycle game.now choices.now place cycle.items) }
{
    let left = edges_left(game, choices, place);
    let mut cycle = way_to(alloc, game, choices, game.priority(place), left, place)?;
    cycle.insert(0, place)?;
    Ok(cycle)
}
