//! Which letters of a block each edge answers, in the lanes of words.

ghost use Rattle.std.specs.Prelude.{◌≡◌, ◌<◌, ◌≤◌, ◌*◌, ◌^◌, All, IfErr, IfOk, IfSome, length};
ghost use Rattle.omega_hoa_expression.specs.Limits.{most_mentioned};
ghost use Rattle.omega_lang_runs.specs.Places.{ArePlaces, EdgeStandsAt};
ghost use Rattle.omega_synth_game.specs.Classes.{mentioned_inputs, label_of_number};
ghost use Rattle.omega_synth_game.specs.private.EdgeWords.{AreEdgeWords, IsEdgeUnanswered, IsEdgeWord};
ghost use Rattle.omega_synth_game.specs.private.Lanes.{AreInputsFor};
ghost use Rattle.omega_synth_game.specs.private.Making.{IsSomeLetterUnanswered};

use crate::inputs::letter_numbered;
use crate::lanes::{Lanes, answer_word};
use crate::letters::answers_letter;
use crate::stack::Stack;
use omega_hoa_automaton::{Automaton, Refusal};
use omega_hoa_edges::edge_label;
use omega_lang_runs::{EdgePlace, edges_are_taken_where_true};
use std::alloc::Global;

/// Returns for each of the edges with these `numbers`, whose labels mention no other inputs than those of `lanes`, the
/// word whose lanes say which letters of the block it answers. Reads the `places` of all edges. Fails as
/// `answers_letter` does.
fn edge_words(
    alloc: Global,
    automaton: &Automaton,
    places: &[EdgePlace],
    numbers: &[u32],
    lanes: &Lanes<'_>,
    stack: &mut Stack,
) -> Result<Vec<u64>, Refusal>
    requires places { ArePlaces automaton.now places.now }
    requires numbers { All (λ number. number < length places.now) numbers.now }
    requires inputs { lanes.now.inputs.now
        ≡ mentioned_inputs automaton.now lanes.now.controlled.now numbers.now }
    requires few { length lanes.now.inputs.now ≤ most_mentioned }
    requires block { lanes.now.block * 64 < 2 ^ length lanes.now.inputs.now }
    ensures words { IfOk result (λ words. AreEdgeWords automaton.now lanes.now.controlled.now
        lanes.now.inputs.now lanes.now.block numbers.now (length numbers.now) words.items) }
    ensures refused { IfErr result
        (IsSomeLetterUnanswered automaton.now lanes.now.controlled.now numbers.now) }
{
    let mut words = Vec::new(alloc);
    for number in numbers {
        let place = places[*number as usize];
        let word = edge_word(alloc, automaton, place, *number, lanes, stack)?;
        words.push(word)?;
    }
    Ok(words)
}

/// Returns the words of the block if `lane` is its first one, otherwise the `words` that are given.
pub(crate) fn words_at(
    alloc: Global,
    automaton: &Automaton,
    places: &[EdgePlace],
    numbers: &[u32],
    lanes: &Lanes<'_>,
    lane: u32,
    words: Vec<u64>,
    stack: &mut Stack,
) -> Result<Vec<u64>, Refusal>
    requires places { ArePlaces automaton.now places.now }
    requires numbers { All (λ number. number < length places.now) numbers.now }
    requires inputs { lanes.now.inputs.now
        ≡ mentioned_inputs automaton.now lanes.now.controlled.now numbers.now }
    requires few { length lanes.now.inputs.now ≤ most_mentioned }
    requires block { lanes.now.block * 64 < 2 ^ length lanes.now.inputs.now }
    requires words { 0 < lane → AreEdgeWords automaton.now lanes.now.controlled.now
        lanes.now.inputs.now lanes.now.block numbers.now (length numbers.now) words.items }
    ensures words { IfOk result (λ words. AreEdgeWords automaton.now lanes.now.controlled.now
        lanes.now.inputs.now lanes.now.block numbers.now (length numbers.now) words.items) }
    ensures refused { IfErr result
        (IsSomeLetterUnanswered automaton.now lanes.now.controlled.now numbers.now) }
{
    if lane == 0 {
        edge_words(alloc, automaton, places, numbers, lanes, stack)
    } else {
        Ok(words)
    }
}

/// Returns the word whose lanes say which letters of the block are answered by the edge with this `number`, which is at
/// `place`. Fails as `answers_letter` does.
fn edge_word(
    alloc: Global,
    automaton: &Automaton,
    place: EdgePlace,
    number: u32,
    lanes: &Lanes<'_>,
    stack: &mut Stack,
) -> Result<u64, Refusal>
    requires place { EdgeStandsAt automaton.now number place }
    requires inputs { AreInputsFor lanes.now.controlled.now lanes.now.inputs.now
        (label_of_number automaton.now number) }
    requires few { length lanes.now.inputs.now ≤ most_mentioned }
    requires block { lanes.now.block * 64 < 2 ^ length lanes.now.inputs.now }
    ensures word { IfOk result (IsEdgeWord automaton.now lanes.now.controlled.now
        lanes.now.inputs.now lanes.now.block number) }
    ensures refused { IfErr result (IsEdgeUnanswered automaton.now lanes.now.controlled.now number) }
{
    let found = quick_word(alloc, automaton, place, number, lanes, stack)?;
    match found {
        Some(word) => Ok(word),
        None => word_by_letters(alloc, automaton, place, number, lanes),
    }
}

/// Returns the word that `edge_word` returns, if the label mentions few of the system's propositions.
fn quick_word(
    alloc: Global,
    automaton: &Automaton,
    place: EdgePlace,
    _number: u32,
    lanes: &Lanes<'_>,
    stack: &mut Stack,
) -> Result<Option<u64>, Refusal>
    requires place { EdgeStandsAt automaton.now _number place }
    requires inputs { AreInputsFor lanes.now.controlled.now lanes.now.inputs.now
        (label_of_number automaton.now _number) }
    requires few { length lanes.now.inputs.now ≤ most_mentioned }
    requires block { lanes.now.block * 64 < 2 ^ length lanes.now.inputs.now }
    ensures word { IfOk result (λ found. IfSome found (IsEdgeWord automaton.now
        lanes.now.controlled.now lanes.now.inputs.now lanes.now.block _number)) }
    ensures refused { IfErr result (IsEdgeUnanswered automaton.now lanes.now.controlled.now _number) }
{
    edges_are_taken_where_true();
    let count = automaton.propositions().len();
    let state = &automaton.defined()[place.state];
    let edge = state.edges.edge(place.index);
    let label = edge_label(alloc, count, state, &edge, place.index)?;
    answer_word(alloc, label.get(), lanes, stack)
}

/// Returns the word that `edge_word` returns, by judging the label at one letter after another.
fn word_by_letters(
    alloc: Global,
    automaton: &Automaton,
    place: EdgePlace,
    number: u32,
    lanes: &Lanes<'_>,
) -> Result<u64, Refusal>
    requires place { EdgeStandsAt automaton.now number place }
    requires few { length lanes.now.inputs.now ≤ most_mentioned }
    requires block { lanes.now.block * 64 < 2 ^ length lanes.now.inputs.now }
    ensures word { IfOk result (IsEdgeWord automaton.now lanes.now.controlled.now
        lanes.now.inputs.now lanes.now.block number) }
    ensures refused { IfErr result (IsEdgeUnanswered automaton.now lanes.now.controlled.now number) }
{
    let mut word: u64 = 0;
    for lane in 0..64 {
        let letter = letter_numbered(alloc, lanes.inputs, lanes.block * 64 + lane)?;
        let given = letter.as_slice();
        let here = answers_letter(alloc, automaton, place, number, lanes.controlled, given)?;
        if here {
            word |= 1 << lane;
        }
    }
    Ok(word)
}
