ghost use Rattle.std.specs.Prelude.{◌≡◌, ◌+◌, ◌*◌, ◌++◌, ◌≤◌, false, [], IfErr, IfOk, IsOkUnless, OnOk};
ghost use Rattle.omega_hoa_expression.specs.Limits.{most_buchi_sets};
ghost use Rattle.omega_game_values.specs.Building.{IsGameOf};
ghost use Rattle.omega_game_values.specs.Limits.{most_nodes};
ghost use Rattle.omega_empty.specs.Counters.{counters};
ghost use Rattle.omega_hoa_automaton.specs.AcceptanceKind.{HasKind};
ghost use Rattle.omega_hoa_automaton.specs.Branching.{has_universal_branching};
ghost use Rattle.omega_empty.specs.EmptinessGame.{IsEmptinessGame, span};
ghost use Rattle.omega_empty.specs.Refusing.{IsGameRefusal, IsGiven, IsUndecided};
ghost use Rattle.omega_empty.specs.private.layout.Nodes.{game_nodes};

use crate::edge_ranges::edge_ranges;
use crate::judged::Judged;
use crate::kinds::{counters_of, fits, kind_of};
use crate::nodes::add_counter;
use crate::usable::usable_edges;
use omega_game_values::{ForwardGame, GameBuilder, Player};
use omega_hoa_acceptance::AccKind;
use omega_hoa_automaton::{Automaton, Refusal, has_universal_branching};
use omega_text::{GameFault, TaskFault};
use std::alloc::Global;

/// Makes the emptiness game of `automaton`, all of whose nodes player 0 owns. Player 0 wins from the node of a start,
/// at the first counter, exactly if an accepting lasso begins there. The identifiers are those of states, of edges and
/// of the sink, counter by counter. The cost is linear in the automaton and in the number of counters.
///
/// Fails with the first that applies of [GameFault::TooManyNodes], by the number of identifiers,
/// [TaskFault::NotParity], [TaskFault::UniversalBranch], and [TaskFault::TooManyPropositions], by any label of any
/// edge.
pub fn emptiness_game(alloc: Global, automaton: &Automaton) -> Result<ForwardGame, Refusal>
    ensures game { IfOk result (IsEmptinessGame automaton.now) }
    ensures given { OnOk result (IsGiven automaton.now) }
    ensures refused { IfErr result (IsGameRefusal automaton.now) }
{
    let Some(kind) = kind_of(automaton) else {
        return Err(undecided_refusal(automaton));
    };
    let room = fits(automaton, counters_of(kind));
    if !room {
        return Err(Refusal::Game(GameFault::TooManyNodes));
    }
    game_of(alloc, automaton, kind)
}

/// Returns the refusal of `automaton`, which has no acceptance kind: [GameFault::TooManyNodes], or else
/// [TaskFault::NotParity].
fn undecided_refusal(automaton: &Automaton) -> Refusal
    requires { IsUndecided automaton.now }
    ensures { IsGameRefusal automaton.now result }
{
    let room = fits(automaton, 1);
    if !room {
        return Refusal::Game(GameFault::TooManyNodes);
    }
    Refusal::Task(TaskFault::NotParity)
}

/// Makes the emptiness game of `automaton`, which has this `kind` and whose game fits. Fails with
/// [TaskFault::UniversalBranch], or else with [TaskFault::TooManyPropositions].
fn game_of(alloc: Global, automaton: &Automaton, kind: AccKind) -> Result<ForwardGame, Refusal>
    requires kind { HasKind automaton.now kind }
    requires fits { counters kind * span automaton.now + 1 ≤ most_nodes }
    ensures game { IfOk result (IsEmptinessGame automaton.now) }
    ensures given { OnOk result (IsGiven automaton.now) }
    ensures refused { IfErr result (IsGameRefusal automaton.now) }
{
    automaton.keeps_limits();
    if has_universal_branching(automaton) {
        return Err(Refusal::Task(TaskFault::UniversalBranch));
    }
    let usable = usable_edges(alloc, automaton)?;
    let ranges = edge_ranges(alloc, automaton)?;
    let judged = Judged {
        automaton,
        kind,
        usable,
        ranges,
    };
    let game = emptiness_game_of(alloc, &judged)?;
    Ok(game)
}

/// Builds the game: the nodes of each counter, and then the sink.
fn emptiness_game_of(alloc: Global, judged: &Judged<'_>) -> Result<ForwardGame, Refusal>
    ensures game { IfOk result (IsGameOf (game_nodes judged.now)) }
    ensures memory { IsOkUnless result Refusal.Memory }
{
    judged.keeps_ready();
    let mut builder = GameBuilder::new(alloc);
    for counter in 0..judged.counters() {
        add_counter(&mut builder, judged, counter)?;
    }
    let sink = judged.sink();
    builder.add_node(sink, 1, Player::Zero, sink)?;
    builder.finish_forward()
}
