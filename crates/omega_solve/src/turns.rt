//! Solves for both players in turns. Each turn makes some lifts for one player, finds places that this player has won
//! by then, and hands them on to the other player, for whom they are lost without a further lift.
ghost use Rattle.std.specs.Prelude.{◌≡◌, false, length, IfOk, IfErr, IfSome, IsOk, IsOkUnless, IsTrue};
ghost use Rattle.omega_game_values.specs.declared.player.Player.TheVariants.{One, Zero};
ghost use Rattle.omega_game_values.specs.Game.{IsGame, IsWithinLimits, priorities};
ghost use Rattle.omega_game_values.specs.Player.{opponent_of};
ghost use Rattle.omega_measure.specs.Table.{IsPrepareRefusal, is_too_wide, zero_content};
ghost use Rattle.omega_solve.specs.Turns.{EndsRaised, IsAnswerOfRun, IsNarrow, IsTurnsRefusal};
ghost use Rattle.omega_solve.specs.private.turning.Side.{HasEnded, IsSide};

mod handing;
mod keeping;
mod side;

use crate::answer::fill_answer;
use crate::laws::runs_lead_to_least_tables;
use handing::{hand_on, has_news};
use keeping::{are_won, mark_lost};
use omega_lift_laws::{
    choices_are_a_strategy, choices_win, regions_stay_below_top, zero_tables_are_tables,
};
use omega_lift_schedules::Schedule;
use omega_measure::{Game, MeasureTable, Player, Refusal};
use side::{Side, is_idle, lift_until, take_out};
use std::alloc::Global;

/// The most turns. They are never all taken in practice: each has more lifts than the one before, or hands places on.
const MOST_TURNS: u64 = 1_099_511_627_776;

/// The most takes of one player's schedule.
const MOST_TAKES: u64 = 9_223_372_036_854_775_808;

/// An answer for one player, by place.
#[derive(Drop)]
pub struct TurnsAnswer {
    /// Whether the player wins from the place.
    pub won: Vec<bool>,
    /// The place that the player moves to, for each won place that the player owns; none for all others.
    pub choice: Vec<Option<u32>>,
    /// How often a measure was raised: by a lift, or to top as the place was given up for lost.
    pub raises: u64,
}

/// The answers for both players.
#[derive(Drop)]
pub struct TurnsAnswers {
    /// The answer for player 0.
    pub zero: TurnsAnswer,
    /// The answer for player 1.
    pub one: TurnsAnswer,
}

/// Solves `game` for both players in turns. At first the places of losing priorities are pending, in rising order. Each
/// answer is that of a lifting run for its player. Returns none if the turns do not suffice; no contract says when they
/// do.
///
/// The lifts for a player, and the places given up since the other player wins them, are together at most the bound
/// ([`raises_are_bounded`](crate::raises_are_bounded)).
/// Fails with [TaskFault::TooWide] if the table for one of the players would be too wide. Two tables are in memory at
/// once.
pub fn solve_in_turns<T: MeasureTable, S: Schedule>(
    alloc: Global,
    game: &Game,
) -> Result<Option<TurnsAnswers>, Refusal>
    ensures zero { IfOk result (λ found. IfSome found
        (λ both. IsAnswerOfRun game.now Zero both.zero.won.items both.zero.choice.items)) }
    ensures one { IfOk result (λ found. IfSome found
        (λ both. IsAnswerOfRun game.now One both.one.won.items both.one.choice.items)) }
    ensures zero_raises { IfOk result
        (λ found. IfSome found (λ both. EndsRaised game.now Zero both.zero.raises)) }
    ensures one_raises { IfOk result
        (λ found. IfSome found (λ both. EndsRaised game.now One both.one.raises)) }
    ensures fits { IsOk result → IsNarrow game.now }
    ensures refused { IfErr result (IsTurnsRefusal (priorities game.now)) }
{
    game.keeps_limits();
    let mut zero: Side<T, S> = new_side(alloc, game, Player::Zero)?;
    let mut one: Side<T, S> = new_side(alloc, game, Player::One)?;
    let mut lost = vec![in alloc; false; game.len()]?;
    let mut stack = vec![in alloc; 0u32; game.len()]?;
    if !take_turns(game, &mut zero, &mut one, &mut lost, &mut stack) {
        return Ok(None);
    }
    Ok(Some(TurnsAnswers {
        zero: answer_of(alloc, game, Player::Zero, &zero)?,
        one: answer_of(alloc, game, Player::One, &one)?,
    }))
}

/// Makes the side of `player` with every measure 0. The places of losing priorities are pending.
fn new_side<T: MeasureTable, S: Schedule>(
    alloc: Global,
    game: &Game,
    player: Player,
) -> Result<Side<T, S>, Refusal>
    requires { IsGame game.now }
    ensures side { IfOk result
        (λ side. IsSide game.now player (T.content side.table) (S.waiting side.schedule) side.raises) }
    ensures fits { IsOk result → is_too_wide player (priorities game.now) ≡ false }
    ensures refused { IfErr result (IsPrepareRefusal player (priorities game.now)) }
{
    zero_tables_are_tables();
    let table = T::prepare(alloc, game, player)?;
    let schedule = S::prepare(alloc, game.len() as u32)?;
    let mut side = Side {
        table,
        schedule,
        raises: 0,
    };
    take_out_winning(game, player, &mut side);
    Ok(side)
}

/// Takes out the places whose priorities do not lose for `player`. No lift is due there while every measure is 0.
fn take_out_winning<T: MeasureTable, S: Schedule>(
    game: &Game,
    player: Player,
    side: &mut Side<T, S>,
)
    requires game { IsGame game.now }
    requires side { IsSide game.now player (T.content side.old.table)
        (S.waiting side.old.schedule) side.old.raises }
    requires zero { T.content side.old.table ≡ zero_content player (priorities game.now) }
    ensures { IsSide game.now player (T.content side.new.table)
        (S.waiting side.new.schedule) side.new.raises }
{
    for place in 0..game.len() {
        if !player.loses(game.priority(place as u32)) {
            take_out(game, player, side, place as u32);
        }
    }
}

/// Takes turns until no place is pending for either player. Returns false if they do not suffice.
fn take_turns<T: MeasureTable, S: Schedule>(
    game: &Game,
    zero: &mut Side<T, S>,
    one: &mut Side<T, S>,
    lost: &mut [bool],
    stack: &mut [u32],
) -> bool
    requires game { IsGame game.now }
    requires zero { IsSide game.now Zero (T.content zero.old.table)
        (S.waiting zero.old.schedule) zero.old.raises }
    requires one { IsSide game.now One (T.content one.old.table)
        (S.waiting one.old.schedule) one.old.raises }
    requires entries { length lost.old ≡ length game.now }
    ensures zero { IsTrue result → HasEnded game.now Zero (T.content zero.new.table)
        (S.waiting zero.new.schedule) zero.new.raises }
    ensures one { IsTrue result → HasEnded game.now One (T.content one.new.table)
        (S.waiting one.new.schedule) one.new.raises }
{
    let first = (game.len() as u64 / 2)
        .saturating_add(game.edges() as u64 / 2)
        .saturating_add(16);
    let mut zero_quota = first;
    let mut one_quota = first;
    for _ in 0..MOST_TURNS {
        if is_idle(&zero.schedule) && is_idle(&one.schedule) {
            return true;
        }
        zero_quota = turn(game, Player::Zero, zero, one, lost, stack, zero_quota);
        one_quota = turn(game, Player::One, one, zero, lost, stack, one_quota);
    }
    false
}

/// Takes a turn of `player`, whose side is `side`: lifts with at most about `quota` takes, and hands on to the `other`
/// side what the player has won by then. Returns the quota of the next turn, which is twice as much if nothing was
/// handed on.
fn turn<T: MeasureTable, S: Schedule>(
    game: &Game,
    player: Player,
    side: &mut Side<T, S>,
    other: &mut Side<T, S>,
    lost: &mut [bool],
    stack: &mut [u32],
    quota: u64,
) -> u64
    requires game { IsGame game.now }
    requires side { IsSide game.now player (T.content side.old.table)
        (S.waiting side.old.schedule) side.old.raises }
    requires other { IsSide game.now (opponent_of player) (T.content other.old.table)
        (S.waiting other.old.schedule) other.old.raises }
    requires entries { length lost.old ≡ length game.now }
    ensures side { IsSide game.now player (T.content side.new.table)
        (S.waiting side.new.schedule) side.new.raises }
    ensures other { IsSide game.now (opponent_of player) (T.content other.new.table)
        (S.waiting other.new.schedule) other.new.raises }
    ensures entries { length lost.new ≡ length lost.old }
{
    if is_idle(&side.schedule) {
        return quota;
    }
    let limit = side.schedule.takes().saturating_add(quota).min(MOST_TAKES);
    lift_until(game, player, side, limit);
    mark_lost(game, player, &side.table, &side.schedule, lost, stack);
    if has_news(game, &other.table, lost)
        && are_won(game, player, &side.table, lost)
        && hand_on(game, player.opponent(), other, lost)
    {
        quota
    } else {
        quota.saturating_mul(2)
    }
}

/// Returns the answer of a side for which no place is pending.
fn answer_of<T: MeasureTable, S: Schedule>(
    alloc: Global,
    game: &Game,
    player: Player,
    side: &Side<T, S>,
) -> Result<TurnsAnswer, Refusal>
    requires game { IsGame game.now }
    requires limits { IsWithinLimits game.now }
    requires ended { HasEnded game.now player (T.content side.now.table)
        (S.waiting side.now.schedule) side.now.raises }
    ensures answer { IfOk result
        (λ answer. IsAnswerOfRun game.now player answer.won.items answer.choice.items) }
    ensures raises { IfOk result (λ answer. EndsRaised game.now player answer.raises) }
    ensures memory { IsOkUnless result Refusal.Memory }
{
    runs_lead_to_least_tables();
    choices_are_a_strategy();
    choices_win();
    regions_stay_below_top();
    let mut won = vec![in alloc; false; game.len()]?;
    let mut choice = vec![in alloc; None; game.len()]?;
    fill_answer(game, player, &side.table, &mut won, &mut choice);
    Ok(TurnsAnswer {
        won,
        choice,
        raises: side.raises,
    })
}
