//! The names of nodes.

ghost use Rattle.std.specs.Prelude.{◌≡◌, ◌++◌, ◌<◌, ◌≤◌, ℕ, IfOk, IsOkUnless, OnOk, length, slice_index_or};
ghost use Rattle.omega_game_values.specs.Limits.{most_nodes};
ghost use Rattle.omega_synth_rounds.specs.Naming.{class_name, state_name};
ghost use Rattle.omega_synth_rounds.specs.Rounds.{IsRounds};
ghost use Rattle.omega_synth_rounds.specs.RoundsGame.{node_count};
ghost use Rattle.omega_synth_rounds.specs.private.Naming.{AreStatesOf, node_name};
ghost use Rattle.omega_synth_rounds.specs.declared.rounds.QuestionRange.{QuestionRange};

use crate::nodes::range_of;
use crate::rounds::{QuestionRange, Rounds};
use omega_text::{Refusal, write_number};
use std::alloc::Global;

/// Returns for each question a state that it is asked in.
pub(crate) fn question_states(alloc: Global, rounds: &Rounds) -> Result<Vec<u32>, Refusal>
    requires rounds { IsRounds rounds.now }
    requires fits { node_count rounds.now ≤ most_nodes }
    ensures states { IfOk result (λ states. AreStatesOf rounds.now states.items) }
    ensures memory { IsOkUnless result Refusal.Memory }
{
    let mut states = vec![in alloc; 0; rounds.questions.len()]?;
    for state in 0..rounds.states.len() as u32 {
        let range = range_of(rounds, state);
        set_within(&mut states, range, state);
    }
    Ok(states)
}

/// Sets the entries of the questions in `range` to `state`.
fn set_within(states: &mut Vec<u32>, range: QuestionRange, state: u32)
    requires { range.end ≤ length states.old.items }
    ensures entries { length states.new.items ≡ length states.old.items }
    ensures within { (question : ℕ) → range.first ≤ question → question < range.end
        → slice_index_or states.new.items question 0 ≡ state }
    ensures before { (question : ℕ) → question < range.first
        → slice_index_or states.new.items question 0 ≡ slice_index_or states.old.items question 0 }
    ensures after { (question : ℕ) → range.end ≤ question
        → slice_index_or states.new.items question 0 ≡ slice_index_or states.old.items question 0 }
{
    for question in range.first..range.end {
        states[question as usize] = state;
    }
}

/// Returns the name of the node at `place`, where `states` lists for each question the state that it is named for.
pub(crate) fn name_at(
    alloc: Global,
    rounds: &Rounds,
    states: &[u32],
    place: u32,
) -> Result<Vec<u8>, Refusal>
    requires fits { node_count rounds.now ≤ most_nodes }
    requires place { place < node_count rounds.now }
    requires states { AreStatesOf rounds.now states.now }
    ensures name { IfOk result (λ name. name.items ≡ node_name rounds.now states.now place) }
    ensures memory { IsOkUnless result Refusal.Memory }
{
    let count = rounds.states.len() as u32;
    let sink = count + rounds.edges.len() as u32;
    let mut name = Vec::new(alloc);
    if place < count {
        append_state(place, &mut name)?;
    } else if place < sink {
        name.extend_from_slice(b"edge ")?;
        write_number(u128::from(place - count), &mut name)?;
    } else if place == sink {
        name.extend_from_slice(b"sink")?;
    } else {
        let question = place - (sink + 1);
        let state = states[question as usize];
        let range = range_of(rounds, state);
        append_class(state, question - range.first, &mut name)?;
    }
    Ok(name)
}

/// Appends the name of `state`.
fn append_state(state: u32, name: &mut Vec<u8>) -> Result<(), Refusal>
    ensures name { OnOk result (name.new.items ≡ name.old.items ++ state_name state) }
    ensures memory { IsOkUnless result Refusal.Memory }
{
    name.extend_from_slice(b"state ")?;
    write_number(u128::from(state), name)
}

/// Appends the name of the question with this `index` among those of `state`.
fn append_class(state: u32, index: u32, name: &mut Vec<u8>) -> Result<(), Refusal>
    ensures name { OnOk result (name.new.items ≡ name.old.items ++ class_name state index) }
    ensures memory { IsOkUnless result Refusal.Memory }
{
    append_state(state, name)?;
    name.extend_from_slice(b" class ")?;
    write_number(u128::from(index), name)
}
