ghost use Rattle.std.specs.Prelude.{◌≡◌, ◌++◌, ◌∷◌, [], ◌≤◌, ◌↔◌, ◌<◌, IfErr, IfOk, IsOkUnless, IsTrue, OnOk};
ghost use Rattle.omega_game_values.specs.Limits.{most_nodes};
ghost use Rattle.omega_synth_rounds.specs.Naming.{IsNamedGame};
ghost use Rattle.omega_synth_rounds.specs.Rounds.{IsRounds};
ghost use Rattle.omega_synth_rounds.specs.RoundsGame.{FitsAGame, IsRoundsGame, IsRoundsRefusal, node_count};
ghost use Rattle.omega_synth_rounds.specs.private.Naming.{AreStatesOf, named_node};

use crate::naming::{name_at, question_states};
use crate::nodes::add_node_at;
use crate::rounds::Rounds;
use omega_game_values::{Game, GameBuilder, MOST_NODES};
use omega_text::{GameFault, Refusal};
use std::alloc::Global;

/// Makes the parity game of `rounds`. Its nodes are those of the states, the edges, the sink and the questions, in this
/// order; the identifier of each is its place. The cost is linear in the rounds.
///
/// Fails with [GameFault::TooManyNodes], or else with [GameFault::TooManyEdges].
pub fn rounds_game(alloc: Global, rounds: &Rounds) -> Result<Game, Refusal>
    requires { IsRounds rounds.now }
    ensures game { IfOk result (IsRoundsGame rounds.now) }
    ensures fits { OnOk result (FitsAGame rounds.now) }
    ensures refused { IfErr result (IsRoundsRefusal rounds.now) }
{
    if !fits(rounds) {
        return Err(Refusal::Game(GameFault::TooManyNodes));
    }
    let count = node_count(rounds);
    let mut builder = GameBuilder::new(alloc);
    for place in 0..count {
        add_node_at(&mut builder, rounds, place)?;
    }
    builder.finish()
}

/// Makes the game of `rounds_game` with a name for each node: `state 3`, `edge 7`, `sink`, and `state 3 class 0` for
/// the first question of state 3. The cost is linear in the rounds and in the lengths of their ranges of questions.
///
/// Fails as `rounds_game` does.
pub fn named_rounds_game(alloc: Global, rounds: &Rounds) -> Result<Game, Refusal>
    requires { IsRounds rounds.now }
    ensures game { IfOk result (IsNamedGame rounds.now) }
    ensures fits { OnOk result (FitsAGame rounds.now) }
    ensures refused { IfErr result (IsRoundsRefusal rounds.now) }
{
    if !fits(rounds) {
        return Err(Refusal::Game(GameFault::TooManyNodes));
    }
    let states = question_states(alloc, rounds)?;
    named_game(alloc, rounds, states.as_slice())
}

/// Makes the game in which a question is named for its state in `states`.
fn named_game(alloc: Global, rounds: &Rounds, states: &[u32]) -> Result<Game, Refusal>
    requires rounds { IsRounds rounds.now }
    requires fits { node_count rounds.now ≤ most_nodes }
    requires states { AreStatesOf rounds.now states.now }
    ensures game { IfOk result (IsNamedGame rounds.now) }
    ensures fits { OnOk result (FitsAGame rounds.now) }
    ensures refused { IfErr result (IsRoundsRefusal rounds.now) }
{
    let count = node_count(rounds);
    let mut builder = GameBuilder::new(alloc);
    for place in 0..count {
        add_named_node(alloc, &mut builder, rounds, states, place)?;
    }
    builder.finish()
}

/// Adds the node at `place` with its name.
fn add_named_node(
    alloc: Global,
    builder: &mut GameBuilder,
    rounds: &Rounds,
    states: &[u32],
    place: u32,
) -> Result<(), Refusal>
    requires rounds { IsRounds rounds.now }
    requires fits { node_count rounds.now ≤ most_nodes }
    requires place { place < node_count rounds.now }
    requires states { AreStatesOf rounds.now states.now }
    ensures ok { OnOk result
        (builder.new ≡ builder.old ++ named_node rounds.now states.now place ∷ []) }
    ensures memory { IsOkUnless result Refusal.Memory }
{
    add_node_at(builder, rounds, place)?;
    let name = name_at(alloc, rounds, states, place)?;
    builder.set_name(name.as_slice())
}

/// Whether the game has no more nodes than a game may have.
fn fits(rounds: &Rounds) -> bool
    ensures { IsTrue result ↔ (node_count rounds.now ≤ most_nodes) }
{
    if rounds.states.len() > MOST_NODES
        || rounds.edges.len() > MOST_NODES
        || rounds.questions.len() > MOST_NODES
    {
        return false;
    }
    rounds.states.len() + rounds.edges.len() + rounds.questions.len() < MOST_NODES
}

/// Returns the number of nodes.
fn node_count(rounds: &Rounds) -> u32
    requires { node_count rounds.now ≤ most_nodes }
    ensures { result ≡ node_count rounds.now }
{
    (rounds.states.len() + rounds.edges.len() + 1 + rounds.questions.len()) as u32
}
