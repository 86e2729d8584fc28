//! Whether a strategy wins, without a solver.
ghost use Rattle.std.specs.Prelude.{◌≡◌, ◌↔◌, ◌<◌, length, All, IfOk, IfSome, IsTrue, IsOkUnless};
ghost use Rattle.omega_game_values.specs.declared.player.Player.TheVariants.{One, Zero};
ghost use Rattle.omega_game_values.specs.Solution.{WinsAsGiven};
ghost use Rattle.omega_game_values.specs.Winning.{IsStrategy};
ghost use Rattle.omega_game.specs.Checking.{WinsFrom};

mod components;
pub(crate) mod deciding;
pub(crate) mod decision;
mod finding;
mod given;
mod levels;
mod nest;
mod nesting;
mod ordering;
mod recurring;
mod rounds;
mod top_nodes;
mod union_find;

use crate::following::followed_from;
use deciding::{decide, decide_fast};
use given::shows_given;
use omega_game_values::{ForwardGame, Player, Solution, Strategy};
use omega_text::Refusal;
use ordering::shows_none;
use std::alloc::{AllocError, Global};

/// Whether a strategy of the player wins from each of the places, which may come in any order and repeatedly: yes if
/// there are none. A walk may take each edge that the choices leave possible: at a node with a choice the chosen one,
/// at each other node all. Returns [`Refusal::Memory`] if a request for memory is refused.
///
/// A few searches for strongly connected components (Tarjan 1972) suggest an answer, which is checked. If they give up,
/// one search for each halving of the priorities in use suggests it. If the suggestion is confirmed, the cost is near
/// (m + n) · log d for n nodes, m edges and d priorities in use, whether they lose or not, after the nodes are sorted
/// by priority. Else each place of a losing priority is tested by a search of its own: n · m at worst. Tests show no
/// suggestion that is not confirmed, and no proof excludes one.
pub fn check_strategy(
    alloc: Global,
    game: &ForwardGame,
    player: Player,
    places: &[u32],
    strategy: &Strategy,
) -> Result<bool, Refusal>
    requires places { All (λ place. place < length game.now) places.now }
    requires fits { IsStrategy game.now player strategy.now.choice }
    ensures wins { IfOk result
        (λ answer. IsTrue answer ↔ WinsFrom game.now player strategy.now.choice places.now) }
    ensures memory { IsOkUnless result Refusal.Memory }
{
    let answer = wins_from(alloc, game, player, places, strategy.choice.as_slice())?;
    Ok(answer)
}

/// Returns the answer of `check_strategy` if the suggestion of its fast search is confirmed, else `None`: so the cost
/// is near (m + n) · log d in each case. Returns [`Refusal::Memory`] if a request for memory is refused.
pub fn check_strategy_fast(
    alloc: Global,
    game: &ForwardGame,
    player: Player,
    places: &[u32],
    strategy: &Strategy,
) -> Result<Option<bool>, Refusal>
    requires places { All (λ place. place < length game.now) places.now }
    requires fits { IsStrategy game.now player strategy.now.choice }
    ensures wins { IfOk result (λ found. IfSome found
        (λ answer. IsTrue answer ↔ WinsFrom game.now player strategy.now.choice places.now)) }
    ensures memory { IsOkUnless result Refusal.Memory }
{
    let found = wins_fast(alloc, game, player, places, strategy.choice.as_slice())?;
    Ok(found)
}

/// Whether `order` shows that a strategy of the player wins from each of the places. At the places that it reaches,
/// each edge that it leaves possible has to lead forward in the order, or back to a place whose priority does not lose
/// and is the greatest on the way. If the order does not show it, the strategy may win all the same. The cost is n + m
/// for n nodes and m edges. Returns [`Refusal::Memory`] if a request for memory is refused.
pub fn check_strategy_by_order(
    alloc: Global,
    game: &ForwardGame,
    player: Player,
    places: &[u32],
    strategy: &Strategy,
    order: &[u32],
) -> Result<bool, Refusal>
    requires places { All (λ place. place < length game.now) places.now }
    requires fits { IsStrategy game.now player strategy.now.choice }
    ensures wins { IfOk result
        (λ answer. IsTrue answer → WinsFrom game.now player strategy.now.choice places.now) }
    ensures memory { IsOkUnless result Refusal.Memory }
{
    let shown = shows_wins(
        alloc,
        game,
        player,
        places,
        strategy.choice.as_slice(),
        order,
    )?;
    Ok(shown)
}

/// Whether `order` shows that each player's strategy of a solution wins from all nodes given to the player. Each edge
/// that it leaves possible there has to lead to a node given to the same player. It also has to lead forward in the
/// order, or back to a place whose priority does not lose and is the greatest on the way. If the order does not show
/// it, the strategies may win all the same. The cost is n + m for n nodes and m edges, with eight bytes a node and four
/// a place of the order. Returns [`Refusal::Memory`] if a request for memory is refused.
pub fn check_solution_by_order(
    alloc: Global,
    game: &ForwardGame,
    solution: &Solution,
    order: &[u32],
) -> Result<bool, Refusal>
    requires winners { length solution.now.winners ≡ length game.now }
    requires zero { IsStrategy game.now Zero solution.now.zero.choice }
    requires one { IsStrategy game.now One solution.now.one.choice }
    ensures wins { IfOk result (λ answer. IsTrue answer → WinsAsGiven game.now solution.now) }
    ensures memory { IsOkUnless result Refusal.Memory }
{
    let shown = shows_given(alloc, game, solution, order)?;
    Ok(shown)
}

/// Whether choices that are a strategy of the player win from each of the places.
fn wins_from(
    alloc: Global,
    game: &ForwardGame,
    player: Player,
    places: &[u32],
    choices: &[Option<u32>],
) -> Result<bool, AllocError>
    requires places { All (λ place. place < length game.now) places.now }
    requires strategy { IsStrategy game.now player choices.now }
    ensures wins { IfOk result
        (λ answer. IsTrue answer ↔ WinsFrom game.now player choices.now places.now) }
{
    game.keeps_limits();
    let marks = followed_from(alloc, game, choices, places)?;
    let decision = decide(alloc, game, player, choices, &marks)?;
    Ok(decision.is_won())
}

/// Returns the answer of `wins_from` if the suggestion of the fast search is confirmed, else `None`.
fn wins_fast(
    alloc: Global,
    game: &ForwardGame,
    player: Player,
    places: &[u32],
    choices: &[Option<u32>],
) -> Result<Option<bool>, AllocError>
    requires places { All (λ place. place < length game.now) places.now }
    requires strategy { IsStrategy game.now player choices.now }
    ensures wins { IfOk result (λ found. IfSome found
        (λ answer. IsTrue answer ↔ WinsFrom game.now player choices.now places.now)) }
{
    game.keeps_limits();
    let marks = followed_from(alloc, game, choices, places)?;
    match decide_fast(alloc, game, player, choices, &marks)? {
        Some(decision) => Ok(Some(decision.is_won())),
        None => Ok(None),
    }
}

/// Whether an order shows that choices that are a strategy of the player win from each of the places.
fn shows_wins(
    alloc: Global,
    game: &ForwardGame,
    player: Player,
    places: &[u32],
    choices: &[Option<u32>],
    order: &[u32],
) -> Result<bool, AllocError>
    requires places { All (λ place. place < length game.now) places.now }
    requires strategy { IsStrategy game.now player choices.now }
    ensures wins { IfOk result
        (λ answer. IsTrue answer → WinsFrom game.now player choices.now places.now) }
{
    game.keeps_limits();
    let marks = followed_from(alloc, game, choices, places)?;
    let answer = shows_none(alloc, game, player, choices, &marks, order)?;
    Ok(answer)
}
