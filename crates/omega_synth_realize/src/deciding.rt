//! Whether an automaton is realizable.

ghost use Rattle.std.specs.Prelude.{◌≤◌, IfErr, IfOk, OnOk};
ghost use Rattle.omega_solve.specs.Limits.{most_lifts};
ghost use Rattle.omega_solve.specs.budget.Observing.{IsObserved, refusal_in};
ghost use Rattle.omega_synth_rounds.specs.Rounds.{IsRounds};
ghost use Rattle.omega_synth_game.specs.Laws.{IsParted};
ghost use Rattle.omega_synth_game.specs.Sizes.{IsGameSmall};
ghost use Rattle.omega_synth_realize.specs.Lifting.{IsAnswerLifted, LiftsAutomaton, LiftsParted};
ghost use Rattle.omega_synth_realize.specs.Realizing.{IsRealizability};
ghost use Rattle.omega_synth_realize.specs.Refusing.{HasNoLargeGame, IsJudgeable};
ghost use Rattle.omega_synth_realize.specs.Refusing.{IsOutcomeRefusalOf, IsRealizabilityRefusal};

use crate::parting::{Parted, parted_rounds};
use crate::realizability::Realizability;
use crate::realizing::{realizability_of, without_start};
use crate::{lift_rounds, solve_rounds};
use omega_hoa_automaton::Automaton;
use omega_solve::budget::Reporter;
use omega_text::Refusal;
use std::alloc::Global;

/// Decides whether `automaton` is realizable where the system controls the propositions with the numbers `controlled`
/// and the environment all others. Returns a controller or a counter-strategy. A number that no proposition has
/// controls nothing, and without a start there is a counter-strategy.
///
/// Refusals, the first of these steps that has one:
///
/// - [TaskFault::UniversalBranch] if a start or an edge lists several states.
/// - [TaskFault::NotDeterministic] with the state of the second start, if there are two.
/// - [TaskFault::NotDeterministic] with the first state by number of which two edges can be taken at one letter, as
///   `check_deterministic_states` finds it.
/// - [TaskFault::NotParity] unless the acceptance has the name and the formula of a parity kind.
/// - [TaskFault::TooManyPropositions] or [TaskFault::TooLarge] if `check_deterministic_states` fails so.
/// - If there is a start, [TaskFault::TooManyPropositions] or [TaskFault::TooLarge] if the labels of a state mention
///   over `MOST_MENTIONED` inputs or if it is not decided whether an edge answers a letter. Likewise
///   [GameFault::TooManyNodes] if the states have over `MOST_NODES` questions, one for each class of letters that the
///   same edges answer.
/// - The refusals of `solve_rounds`: the game is too large, or lifting is where the search gives nothing.
///
/// For each state all `2^m` letters over the `m` inputs that its labels mention are tried, 64 at once.
pub fn realize(
    alloc: Global,
    automaton: &Automaton,
    controlled: &[u32],
) -> Result<Realizability, Refusal>
    ensures realizability { IfOk result (IsRealizability automaton.now controlled.now) }
    ensures judgeable { OnOk result (IsJudgeable automaton.now) }
    ensures small { OnOk result (HasNoLargeGame automaton.now controlled.now) }
    ensures refused { IfErr result (IsRealizabilityRefusal automaton.now controlled.now most_lifts) }
{
    let found = parted_rounds(alloc, automaton, controlled)?;
    match found {
        None => without_start(alloc, automaton, controlled),
        Some(parted) => realize_parted(alloc, automaton, controlled, &parted),
    }
}

/// Decides whether `automaton`, whose rounds are `parted`, is realizable.
fn realize_parted(
    alloc: Global,
    automaton: &Automaton,
    controlled: &[u32],
    parted: &Parted,
) -> Result<Realizability, Refusal>
    requires parted { IsParted automaton.now controlled.now parted.now.rounds
        parted.now.letters parted.now.start }
    requires rounds { IsRounds parted.now.rounds }
    requires judgeable { IsJudgeable automaton.now }
    ensures realizability { IfOk result (IsRealizability automaton.now controlled.now) }
    ensures small { OnOk result (IsGameSmall automaton.now controlled.now) }
    ensures refused { IfErr result (IsOutcomeRefusalOf automaton.now controlled.now most_lifts) }
{
    let outcome = solve_rounds(alloc, &parted.rounds, parted.start)?;
    realizability_of(alloc, automaton, controlled, parted, outcome)
}

/// Decides as `realize` does, by lifting within `budget`, and reports each run to `observer`.
///
/// Fails as `realize` does up to the game. Or else fails with [TaskFault::TooWide] if a table of measures would be too
/// wide for one of the players, or else with [TaskFault::Budget] if a lift is due when a player's budget is used up.
/// Each of the two may make the whole budget of lifts; for player 1 none is made if player 0 wins. There is an answer
/// only if the lifting for its winner, and that for player 0 before, ends within the budget.
pub fn realize_by_lifting<L, W: Reporter<L>>(
    alloc: Global,
    automaton: &Automaton,
    controlled: &[u32],
    budget: u64,
    reporter: &W,
    observer: &mut L,
) -> Result<Realizability, Refusal>
    requires { budget ≤ most_lifts }
    ensures realizability { IfOk result (IsRealizability automaton.now controlled.now) }
    ensures judgeable { OnOk result (IsJudgeable automaton.now) }
    ensures lifted { IfOk result (IsAnswerLifted automaton.now controlled.now budget) }
    ensures small { OnOk result (HasNoLargeGame automaton.now controlled.now) }
    ensures refused { IfErr result (IsRealizabilityRefusal automaton.now controlled.now budget) }
    ensures reported { IsObserved (LiftsAutomaton automaton.now controlled.now) (refusal_in result)
        (W.tells reporter.now) (W.pace reporter.now) budget observer.old observer.new }
{
    let found = parted_rounds(alloc, automaton, controlled)?;
    match found {
        None => without_start(alloc, automaton, controlled),
        Some(parted) => lift_parted(
            alloc, automaton, controlled, &parted, budget, reporter, observer,
        ),
    }
}

/// Decides by lifting whether `automaton`, whose rounds are `parted`, is realizable.
fn lift_parted<L, W: Reporter<L>>(
    alloc: Global,
    automaton: &Automaton,
    controlled: &[u32],
    parted: &Parted,
    budget: u64,
    reporter: &W,
    observer: &mut L,
) -> Result<Realizability, Refusal>
    requires parted { IsParted automaton.now controlled.now parted.now.rounds
        parted.now.letters parted.now.start }
    requires rounds { IsRounds parted.now.rounds }
    requires judgeable { IsJudgeable automaton.now }
    requires budget { budget ≤ most_lifts }
    ensures realizability { IfOk result (IsRealizability automaton.now controlled.now) }
    ensures lifted { IfOk result (IsAnswerLifted automaton.now controlled.now budget) }
    ensures small { OnOk result (IsGameSmall automaton.now controlled.now) }
    ensures refused { IfErr result (IsOutcomeRefusalOf automaton.now controlled.now budget) }
    ensures reported { IsObserved (LiftsParted automaton.now controlled.now) (refusal_in result)
        (W.tells reporter.now) (W.pace reporter.now) budget observer.old observer.new }
{
    let rounds = &parted.rounds;
    let outcome = lift_rounds(alloc, rounds, parted.start, budget, reporter, observer)?;
    realizability_of(alloc, automaton, controlled, parted, outcome)
}
