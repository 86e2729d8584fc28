ghost use Rattle.std.specs.Prelude.{◌≡◌, ◌++◌, ◌<◌, ◌≤◌, [], ◌∷◌, IsOkUnless, OnOk, length, slice_index};
ghost use Rattle.omega_text.specs.Limits.{most_number};
ghost use Rattle.omega_game_values.specs.Limits.{most_nodes};
ghost use Rattle.omega_synth_rounds.specs.Rounds.{IsRounds, answers_of, range_at};
ghost use Rattle.omega_synth_rounds.specs.RoundsGame.{edge_node, edge_place, node_count, node_for};
ghost use Rattle.omega_synth_rounds.specs.RoundsGame.{question_node, question_place, state_node};

use crate::rounds::{QuestionRange, Rounds};
use omega_game_values::{GameBuilder, Player};
use omega_text::Refusal;

/// Adds the node at `place`.
pub(crate) fn add_node_at(
    builder: &mut GameBuilder,
    rounds: &Rounds,
    place: u32,
) -> Result<(), Refusal>
    requires rounds { IsRounds rounds.now }
    requires fits { node_count rounds.now ≤ most_nodes }
    requires place { place < node_count rounds.now }
    ensures ok { OnOk result (builder.new ≡ builder.old ++ node_for rounds.now place ∷ []) }
    ensures memory { IsOkUnless result Refusal.Memory }
{
    let states = rounds.states.len() as u32;
    let sink = states + rounds.edges.len() as u32;
    if place < states {
        add_state(builder, rounds, place)
    } else if place < sink {
        add_edge(builder, rounds, place - states)
    } else if place == sink {
        builder.add_node(sink, 1, Player::Zero, sink)
    } else {
        add_question(builder, rounds, place - (sink + 1))
    }
}

/// Adds the node of `state`.
fn add_state(builder: &mut GameBuilder, rounds: &Rounds, state: u32) -> Result<(), Refusal>
    requires rounds { IsRounds rounds.now }
    requires fits { node_count rounds.now ≤ most_nodes }
    requires state { state < length rounds.now.states }
    ensures ok { OnOk result (builder.new ≡ builder.old ++ state_node rounds.now state ∷ []) }
    ensures memory { IsOkUnless result Refusal.Memory }
{
    let range = range_of(rounds, state);
    let base = first_question_place(rounds);
    builder.add_node(state, 0, Player::One, base + range.first)?;
    for question in range.first + 1..range.end {
        builder.add_successor(base + question)?;
    }
    Ok(())
}

/// Returns the range of the questions of `state`.
pub(crate) fn range_of(rounds: &Rounds, state: u32) -> QuestionRange
    requires { state < length rounds.now.states }
    ensures { result ≡ range_at rounds.now state }
{
    rounds.states.as_slice()[state as usize]
}

/// Returns the place of the question with number 0.
fn first_question_place(rounds: &Rounds) -> u32
    requires { node_count rounds.now ≤ most_nodes }
    ensures { result ≡ question_place rounds.now 0 }
{
    (rounds.states.len() + rounds.edges.len()) as u32 + 1
}

/// Adds the node of the edge with this `number`.
fn add_edge(builder: &mut GameBuilder, rounds: &Rounds, number: u32) -> Result<(), Refusal>
    requires rounds { IsRounds rounds.now }
    requires fits { node_count rounds.now ≤ most_nodes }
    requires number { number < length rounds.now.edges }
    ensures ok { OnOk result (builder.new ≡ builder.old ++ edge_node rounds.now number ∷ []) }
    ensures memory { IsOkUnless result Refusal.Memory }
{
    let edge = rounds.edges.as_slice()[number as usize];
    let states = rounds.states.len() as u32;
    builder.add_node(states + number, edge.priority, Player::Zero, edge.target)
}

/// Adds the node of `question`.
fn add_question(builder: &mut GameBuilder, rounds: &Rounds, question: u32) -> Result<(), Refusal>
    requires rounds { IsRounds rounds.now }
    requires fits { node_count rounds.now ≤ most_nodes }
    requires question { question < length rounds.now.questions }
    ensures ok { OnOk result (builder.new ≡ builder.old ++ question_node rounds.now question ∷ []) }
    ensures memory { IsOkUnless result Refusal.Memory }
{
    let states = rounds.states.len() as u32;
    let sink = states + rounds.edges.len() as u32;
    let id = sink + 1 + question;
    let count = answers_of(rounds, question).len();
    if count == 0 {
        return builder.add_node(id, 0, Player::Zero, sink);
    }
    let first = answer_place(rounds, question, 0);
    builder.add_node(id, 0, Player::Zero, first)?;
    for at in 1..count {
        let next = answer_place(rounds, question, at);
        builder.add_successor(next)?;
    }
    Ok(())
}

/// Returns the numbers of the edges that answer `question`.
pub(crate) fn answers_of(rounds: &Rounds, question: u32) -> &[u32]
    requires { question < length rounds.now.questions }
    ensures { result.now ≡ answers_of rounds.now question }
{
    rounds.questions.as_slice()[question as usize].as_slice()
}

/// Returns the place of the edge that is the answer to `question` at an index.
fn answer_place(rounds: &Rounds, question: u32, at: usize) -> u32
    requires rounds { IsRounds rounds.now }
    requires fits { node_count rounds.now ≤ most_nodes }
    requires question { question < length rounds.now.questions }
    requires at { at < length (answers_of rounds.now question) }
    ensures place { result ≡ edge_place rounds.now (slice_index (answers_of rounds.now question) at) }
    ensures writable { result ≤ most_number }
{
    let states = rounds.states.len() as u32;
    let answer = answers_of(rounds, question)[at];
    states + answer
}
