ghost use Rattle.std.specs.Prelude.{◌≡◌, ◌≤◌, ◌<◌, ◌↔◌, ℕ, IfErr, IfOk, IsOk};
ghost use Rattle.std.specs.Prelude.{IsTrue, OnOk, Some, false, true, length, slice_get};
ghost use Rattle.omega_game_values.specs.Game.{priorities};
ghost use Rattle.omega_measure.specs.Table.{is_too_wide};
ghost use Rattle.omega_solve.specs.Headline.{IsExact};
ghost use Rattle.omega_solve.specs.Limits.{most_lifts};
ghost use Rattle.omega_solve.specs.budget.Observing.{IsObserved, ReportsSolving, refusal_in};
ghost use Rattle.omega_solve.specs.budget.Within.{EndsWithin, IsSolvingRefusal};
ghost use Rattle.omega_synth_rounds.specs.Rounds.{IsRounds};
ghost use Rattle.omega_synth_rounds.specs.RoundsGame.{FitsAGame, IsRoundsGame};
ghost use Rattle.omega_solve.specs.Turns.{IsNarrow};
ghost use Rattle.omega_synth_realize.specs.Solving.{IsLiftedFor, IsLiftedInRounds, IsLiftingRefusal};
ghost use Rattle.omega_synth_realize.specs.Solving.{IsOutcome, IsOutcomeRefusal, IsWidthRefusal};
ghost use Rattle.omega_synth_realize.specs.Solving.{LiftsGame, LiftsRounds, winner_of};

use crate::outcome::Outcome;
use crate::winning::{controller_outcome, counter_strategy_outcome};
use omega_game_region_laws::regions_cover;
use omega_game_values::{ForwardGame, Player};
use omega_measure::fits;
use omega_solve::budget::{Found, Reordered, Reporter};
use omega_synth_rounds::{Game, Rounds, rounds_game};
use omega_text::{Refusal, TaskFault};
use std::alloc::Global;

/// Decides who wins `rounds` from the state `start` by lifting within `budget`, and returns what wins. Lifts for player
/// 0, and for player 1 if player 0 does not win; each may make the whole budget of lifts, and ends within it where
/// there is an outcome. Each run is reported to `observer`.
///
/// Fails with [GameFault::TooManyNodes] or [GameFault::TooManyEdges] if the game is too large. Or else fails with
/// [TaskFault::TooWide] if the table of measures would be too wide for one of the players, or else with
/// [TaskFault::Budget] if a lift is due when the budget is used up: for player 0, or for player 1 if player 0 does not
/// win.
pub fn lift_rounds<L, W: Reporter<L>>(
    alloc: Global,
    rounds: &Rounds,
    start: u32,
    budget: u64,
    reporter: &W,
    observer: &mut L,
) -> Result<Outcome, Refusal>
    requires rounds { IsRounds rounds.now }
    requires start { start < length rounds.now.states }
    requires budget { budget ≤ most_lifts }
    ensures outcome { IfOk result (IsOutcome rounds.now start) }
    ensures lifted { IfOk result
        (λ outcome. IsLiftedInRounds rounds.now budget (winner_of outcome)) }
    ensures fits { OnOk result (FitsAGame rounds.now) }
    ensures refused { IfErr result (IsOutcomeRefusal rounds.now start budget) }
    ensures reported { IsObserved (LiftsRounds rounds.now) (refusal_in result)
        (W.tells reporter.now) (W.pace reporter.now) budget observer.old observer.new }
{
    let game = rounds_game(alloc, rounds)?;
    lift_in(alloc, rounds, &game, start, budget, reporter, observer)
}

/// Decides who wins `rounds` from `start` by lifting in their `game`. Fails with [TaskFault::TooWide], or else with
/// [TaskFault::Budget].
pub(crate) fn lift_in<L, W: Reporter<L>>(
    alloc: Global,
    rounds: &Rounds,
    game: &Game,
    start: u32,
    budget: u64,
    reporter: &W,
    observer: &mut L,
) -> Result<Outcome, Refusal>
    requires rounds { IsRounds rounds.now }
    requires fits { FitsAGame rounds.now }
    requires game { IsRoundsGame rounds.now game.now }
    requires start { start < length rounds.now.states }
    requires budget { budget ≤ most_lifts }
    ensures outcome { IfOk result (IsOutcome rounds.now start) }
    ensures lifted { IfOk result (λ outcome. IsLiftedFor game.now budget (winner_of outcome)) }
    ensures refused { IfErr result (IsOutcomeRefusal rounds.now start budget) }
    ensures reported { IsObserved (LiftsGame game.now) (refusal_in result)
        (W.tells reporter.now) (W.pace reporter.now) budget observer.old observer.new }
{
    fits_both(game.forward_game())?;
    let reordered = Reordered::of(alloc, game.forward_game())?;
    lifted_outcome(
        alloc, rounds, game, &reordered, start, budget, reporter, observer,
    )
}

/// Fails with [TaskFault::TooWide] alone, if the game is too wide for one of the players.
fn fits_both(game: &ForwardGame) -> Result<(), Refusal>
    ensures narrow { IsOk result → IsNarrow game.now }
    ensures refused { IfErr result (IsWidthRefusal game.now) }
{
    fits_for(game, Player::Zero)?;
    fits_for(game, Player::One)
}

/// Fails with [TaskFault::TooWide] alone, if the game is too wide for `player`.
fn fits_for(game: &ForwardGame, player: Player) -> Result<(), Refusal>
    ensures narrow { IsOk result → is_too_wide player (priorities game.now) ≡ false }
    ensures refused { IfErr result (IsWidthRefusal game.now) }
{
    if fits(game, player) {
        Ok(())
    } else {
        Err(Refusal::Task(TaskFault::TooWide))
    }
}

/// Lifts for player 0, and for player 1 if player 0 does not win from `start`, and returns the outcome.
fn lifted_outcome<L, W: Reporter<L>>(
    alloc: Global,
    rounds: &Rounds,
    game: &Game,
    reordered: &Reordered<'_>,
    start: u32,
    budget: u64,
    reporter: &W,
    observer: &mut L,
) -> Result<Outcome, Refusal>
    requires rounds { IsRounds rounds.now }
    requires game { IsRoundsGame rounds.now game.now }
    requires given { reordered.now.given ≡ game.now }
    requires start { start < length rounds.now.states }
    requires narrow { IsNarrow game.now }
    requires budget { budget ≤ most_lifts }
    ensures outcome { IfOk result (IsOutcome rounds.now start) }
    ensures lifted { IfOk result (λ outcome. IsLiftedFor game.now budget (winner_of outcome)) }
    ensures refused { IfErr result (IsLiftingRefusal game.now start budget) }
    ensures reported { IsObserved (LiftsGame game.now) (refusal_in result)
        (W.tells reporter.now) (W.pace reporter.now) budget observer.old observer.new }
{
    regions_cover();
    game.keeps_limits();
    let zero = found_for(
        alloc,
        game,
        reordered,
        Player::Zero,
        budget,
        reporter,
        observer,
    )?;
    if has_won(&zero, start) {
        return controller_outcome(alloc, rounds, game, zero.choice.as_slice(), start);
    }
    let one = found_for(
        alloc,
        game,
        reordered,
        Player::One,
        budget,
        reporter,
        observer,
    )?;
    counter_strategy_outcome(alloc, rounds, game, one.choice.as_slice(), start)
}

/// Lifts for `player`. Fails with [TaskFault::Budget].
fn found_for<L, W: Reporter<L>>(
    alloc: Global,
    _game: &Game,
    reordered: &Reordered<'_>,
    player: Player,
    budget: u64,
    reporter: &W,
    observer: &mut L,
) -> Result<Found, Refusal>
    requires given { reordered.now.given ≡ _game.now }
    requires narrow { IsNarrow _game.now }
    requires budget { budget ≤ most_lifts }
    ensures exact { IfOk result
        (λ found. IsExact _game.now player found.won.items found.choice.items) }
    ensures ended { IfOk result (λ found. EndsWithin _game.now player budget found.lifts) }
    ensures refused { IfErr result (IsSolvingRefusal _game.now player budget) }
    ensures reported { ReportsSolving (W.tells reporter.now) (W.pace reporter.now)
        _game.now player budget result observer.old observer.new }
{
    reordered.solve(alloc, player, budget, reporter, observer)
}

/// Whether the player for whom this was found wins from `start`.
fn has_won(found: &Found, start: u32) -> bool
    requires { start < length found.now.won.items }
    ensures { IsTrue result ↔ (slice_get found.now.won.items start ≡ Some true) }
{
    found.won[start as usize]
}
