//! The game in which it is decided whether an automaton is realizable.

ghost use Rattle.std.specs.Prelude.{◌≡◌, [], IfErr, IfOk, OnOk};
ghost use Rattle.omega_synth_rounds.specs.Naming.{IsNamedGame};
ghost use Rattle.omega_synth_rounds.specs.Rounds.{IsRounds};
ghost use Rattle.omega_synth_game.specs.Laws.{IsParted};
ghost use Rattle.omega_synth_game.specs.Sizes.{IsGameSmall};
ghost use Rattle.omega_synth_realize.specs.Gaming.{IsPartedGame, IsRealizabilityGame};
ghost use Rattle.omega_synth_realize.specs.Gaming.{IsRealizabilityGameRefusal, no_rounds};
ghost use Rattle.omega_synth_realize.specs.Refusing.{HasNoLargeGame, IsJudgeable};

use crate::parting::{Parted, parted_rounds};
use omega_game_reaching::part;
use omega_hoa_automaton::Automaton;
use omega_synth_rounds::{Game, Rounds, named_rounds_game};
use omega_text::{Refusal, Seq};
use std::alloc::Global;

/// Makes the game in which it is decided whether `automaton` is realizable where the system controls the propositions
/// `controlled`. It is the game of its rounds, as far as it is reached from the node of the start, whose identifier is
/// the number of the start's state. Player 0 is the system. The names of nodes are those of `named_rounds_game`.
/// Without a start the game is the sink alone, which player 0 loses.
///
/// Fails as `realize` does, but for the refusals of lifting.
pub fn realizability_game(
    alloc: Global,
    automaton: &Automaton,
    controlled: &[u32],
) -> Result<Game, Refusal>
    ensures game { IfOk result (IsRealizabilityGame automaton.now controlled.now) }
    ensures small { OnOk result (HasNoLargeGame automaton.now controlled.now) }
    ensures refused { IfErr result (IsRealizabilityGameRefusal automaton.now controlled.now) }
{
    let found = parted_rounds(alloc, automaton, controlled)?;
    match found {
        None => sink_alone(alloc, automaton, controlled),
        Some(parted) => game_from(alloc, automaton, controlled, &parted),
    }
}

/// Makes the game of an automaton whose rounds are `parted`, as far as it is reached from the start.
fn game_from(
    alloc: Global,
    automaton: &Automaton,
    _controlled: &[u32],
    parted: &Parted,
) -> Result<Game, Refusal>
    requires parted { IsParted automaton.now _controlled.now parted.now.rounds
        parted.now.letters parted.now.start }
    requires rounds { IsRounds parted.now.rounds }
    requires judgeable { IsJudgeable automaton.now }
    ensures game { IfOk result (IsPartedGame automaton.now _controlled.now) }
    ensures small { OnOk result (IsGameSmall automaton.now _controlled.now) }
    ensures refused { IfErr result (IsRealizabilityGameRefusal automaton.now _controlled.now) }
{
    let whole = named_rounds_game(alloc, &parted.rounds)?;
    part(alloc, &whole, parted.start)
}

/// Makes the game of no rounds.
fn sink_alone(alloc: Global, _automaton: &Automaton, _controlled: &[u32]) -> Result<Game, Refusal>
    ensures game { IfOk result (IsNamedGame no_rounds) }
    ensures refused { IfErr result (IsRealizabilityGameRefusal _automaton.now _controlled.now) }
{
    let none = without_states(alloc);
    named_rounds_game(alloc, &none)
}

/// Returns rounds without states.
fn without_states(alloc: Global) -> Rounds
    ensures { result ≡ no_rounds }
{
    Rounds {
        states: Seq::new(alloc),
        edges: Seq::new(alloc),
        questions: Seq::new(alloc),
    }
}
