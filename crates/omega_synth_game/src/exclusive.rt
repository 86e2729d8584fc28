//! Whether it is seen at once that at each letter a state has at most one edge.

ghost use Rattle.std.specs.Prelude.{◌≡◌, ◌≤◌, None, ℕ, IfOk, IfSome, IsOkUnless, IsTrue, length};
ghost use Rattle.omega_hoa_expression.specs.Limits.{most_mentioned};
ghost use Rattle.omega_hoa_edges.specs.Determinism.{AreExclusiveBelow};
ghost use Rattle.omega_hoa_edges.specs.AutomatonLabels.{labels_of};
ghost use Rattle.omega_hoa_edges.specs.Letters.{AreExclusive};
ghost use Rattle.omega_synth_game.specs.private.Exclusive.{AreApartIn, AreMentionedBelow};

use crate::inputs::add_inputs_of;
use crate::lanes::{blocks, label_word};
use crate::stack::Stack;
use omega_hoa_automaton::{Automaton, State};
use omega_hoa_expression::MOST_MENTIONED;
use omega_text::{Numbers, Refusal};
use std::alloc::Global;

/// Whether it is seen at once that at each letter each state of `automaton` has at most one edge. A quick, incomplete
/// test: `false` may also come for a deterministic automaton, if a state has a label, an edge has none, or the labels
/// of a state mention over `MOST_MENTIONED` propositions.
///
/// Only `true` is promised to be right. Whoever gets `false` has to judge each two edges, as
/// `check_deterministic_states` of `omega_hoa_edges` does, and loses only time.
///
/// The labels of a state are gone through once for each 64 letters over the propositions that they mention.
pub fn are_seen_apart(alloc: Global, automaton: &Automaton) -> Result<bool, Refusal>
    ensures apart { IfOk result
        (λ apart. IsTrue apart → AreExclusiveBelow automaton.now automaton.now.states) }
    ensures memory { IsOkUnless result Refusal.Memory }
{
    let mut stack = Stack::new(alloc);
    let states = automaton.defined();
    for state in states {
        if !is_seen_apart(alloc, state, &mut stack)? {
            return Ok(false);
        }
    }
    Ok(true)
}

/// Whether it is seen that at each letter `state` has at most one edge.
fn is_seen_apart(alloc: Global, state: &State, stack: &mut Stack) -> Result<bool, Refusal>
    ensures apart { IfOk result
        (λ apart. IsTrue apart → (count : ℕ) → AreExclusive (labels_of count state.now)) }
    ensures memory { IsOkUnless result Refusal.Memory }
{
    match mentioned_in(alloc, state)? {
        None => Ok(false),
        Some(mentioned) => is_apart(state, mentioned.as_slice(), stack),
    }
}

/// Returns the propositions that the labels of the edges of `state` mention, each once; none if they are over
/// `MOST_MENTIONED`, if the state has a label, or if an edge has none.
fn mentioned_in(alloc: Global, state: &State) -> Result<Option<Numbers>, Refusal>
    ensures mentioned { IfOk result (λ found. IfSome found
        (λ mentioned. AreMentionedBelow mentioned state.now (length state.now.edges))) }
    ensures plain { IfOk result (λ found. IfSome found (λ mentioned. state.now.label ≡ None)) }
    ensures few { IfOk result
        (λ found. IfSome found (λ mentioned. length mentioned ≤ most_mentioned)) }
    ensures memory { IsOkUnless result Refusal.Memory }
{
    let mut mentioned = Numbers::new();
    if state.label.is_some() {
        return Ok(None);
    }
    for at in 0..state.edges.len() {
        let edge = state.edges.edge(at);
        match edge.label() {
            None => return Ok(None),
            Some(label) => add_inputs_of(alloc, label, &[], &mut mentioned)?,
        }
        if mentioned.len() > MOST_MENTIONED {
            return Ok(None);
        }
    }
    Ok(Some(mentioned))
}

/// Whether at each letter at most one of the labels of the edges of `state` is true. They mention no other propositions
/// than `mentioned`.
fn is_apart(state: &State, mentioned: &[u32], stack: &mut Stack) -> Result<bool, Refusal>
    requires mentioned { AreMentionedBelow mentioned.now state.now (length state.now.edges) }
    requires plain { state.now.label ≡ None }
    requires few { length mentioned.now ≤ most_mentioned }
    ensures apart { IfOk result
        (λ apart. IsTrue apart → (count : ℕ) → AreExclusive (labels_of count state.now)) }
    ensures memory { IsOkUnless result Refusal.Memory }
{
    for block in 0..blocks(mentioned.len()) {
        if !is_apart_in(state, mentioned, block, stack)? {
            return Ok(false);
        }
    }
    Ok(true)
}

/// Whether at each letter of the block of letters over `mentioned` at most one of the labels of the edges of `state` is
/// true.
fn is_apart_in(
    state: &State,
    mentioned: &[u32],
    block: u32,
    stack: &mut Stack,
) -> Result<bool, Refusal>
    requires few { length mentioned.now ≤ most_mentioned }
    ensures apart { IfOk result (λ apart. IsTrue apart
        → AreApartIn mentioned.now block state.now (length state.now.edges)) }
    ensures memory { IsOkUnless result Refusal.Memory }
{
    let mut seen: u64 = 0;
    for at in 0..state.edges.len() {
        let edge = state.edges.edge(at);
        match edge.label() {
            None => return Ok(false),
            Some(label) => {
                let word = label_word(label, mentioned, block, stack)?;
                if word & seen != 0 {
                    return Ok(false);
                }
                seen |= word;
            }
        }
    }
    Ok(true)
}
