//! The states of the automaton of a symbolic word.

ghost use Rattle.std.specs.Prelude.{◌≡◌, [], ◌∷◌, ◌++◌, ◌+◌, ◌<◌, ◌≤◌, length, IfOk, IsOkUnless, OnOk};
ghost use Rattle.omega_hoa_edges.specs.Limits.{most_states};
ghost use Rattle.omega_lang_inclusion.specs.Written.{letter_state, letter_states, next_state};

use omega_hoa_label::RawLabel;
use omega_hoa_syntax::{RawEdge, RawEdges, RawState, StateName};
use omega_text::{Marks, Numbers, Refusal};
use std::alloc::Global;

/// The states of a word that come one after another: how many there are, and which follows the last.
#[derive(Clone, Copy)]
pub(crate) struct LetterRow {
    pub(crate) count: u32,
    pub(crate) back: u32,
}

/// Returns the states of the letters of a stem, and of the first letter and the others of a cycle.
pub(crate) fn letter_states(
    alloc: Global,
    stem: Vec<RawLabel>,
    first: RawLabel,
    others: Vec<RawLabel>,
) -> Result<Vec<RawState>, Refusal>
    requires { length stem.items + length others.items < most_states }
    ensures states { IfOk result
        (λ states. states.items ≡ letter_states (length stem.items + length others.items + 1)
        (length stem.items) 0 (stem.items ++ first ∷ others.items)) }
    ensures memory { IsOkUnless result Refusal.Memory }
{
    let row = row_of(stem.len(), others.len());
    let mut states = Vec::with_capacity(alloc, row.count as usize)?;
    append_all(alloc, row, stem, first, others, &mut states)?;
    Ok(states)
}

/// Appends the states of the letters of a stem, and of the first letter and the others of a cycle, to `states`, those
/// of the letters before.
fn append_all(
    alloc: Global,
    row: LetterRow,
    stem: Vec<RawLabel>,
    first: RawLabel,
    others: Vec<RawLabel>,
    states: &mut Vec<RawState>,
) -> Result<(), Refusal>
    requires { length states.old.items + length stem.items + length others.items < most_states }
    ensures states { OnOk result (states.new.items ≡ states.old.items ++ letter_states row.count
        row.back (length states.old.items) (stem.items ++ first ∷ others.items)) }
    ensures memory { IsOkUnless result Refusal.Memory }
{
    match append_states(alloc, row, stem, states) {
        Ok(()) => append_cycle(alloc, row, first, others, states),
        Err(refusal) => Err(refusal),
    }
}

/// Appends the states of the first letter and the others of a cycle to `states`, those of the letters before.
fn append_cycle(
    alloc: Global,
    row: LetterRow,
    first: RawLabel,
    others: Vec<RawLabel>,
    states: &mut Vec<RawState>,
) -> Result<(), Refusal>
    requires { length states.old.items + length others.items < most_states }
    ensures states { OnOk result (states.new.items ≡ states.old.items
        ++ letter_states row.count row.back (length states.old.items) (first ∷ others.items)) }
    ensures memory { IsOkUnless result Refusal.Memory }
{
    match append_state(alloc, row, first, states) {
        Ok(()) => append_states(alloc, row, others, states),
        Err(refusal) => Err(refusal),
    }
}

/// Returns the row of the letters of a stem, of the first letter of a cycle and of the others, by their counts.
fn row_of(stem: usize, others: usize) -> LetterRow
    requires { stem + others < most_states }
    ensures count { result.count ≡ stem + others + 1 }
    ensures back { result.back ≡ stem }
{
    LetterRow {
        count: (stem + others + 1) as u32,
        back: stem as u32,
    }
}

/// Appends the states of `letters` to `states`, those of the letters before.
fn append_states(
    alloc: Global,
    row: LetterRow,
    letters: Vec<RawLabel>,
    states: &mut Vec<RawState>,
) -> Result<(), Refusal>
    requires { length states.old.items + length letters.items ≤ most_states }
    ensures states { OnOk result (states.new.items ≡ states.old.items
        ++ letter_states row.count row.back (length states.old.items) letters.items) }
    ensures memory { IsOkUnless result Refusal.Memory }
{
    for letter in letters {
        append_state(alloc, row, letter, states)?;
    }
    Ok(())
}

/// Appends the state of `letter` to `states`, those of the letters before.
fn append_state(
    alloc: Global,
    row: LetterRow,
    letter: RawLabel,
    states: &mut Vec<RawState>,
) -> Result<(), Refusal>
    requires { length states.old.items < most_states }
    ensures states { OnOk result (states.new.items ≡ states.old.items
        ++ letter_states row.count row.back (length states.old.items) (letter ∷ [])) }
    ensures memory { IsOkUnless result Refusal.Memory }
{
    let number = states.len() as u32;
    let state = letter_state(alloc, row, number, letter)?;
    states.push(state)?;
    Ok(())
}

/// Returns the state of `letter` with this `number`, whose one edge leads to the state that follows.
fn letter_state(
    alloc: Global,
    row: LetterRow,
    number: u32,
    letter: RawLabel,
) -> Result<RawState, Refusal>
    requires { number < most_states }
    ensures state { IfOk result
        (λ state. state ≡ letter_state number (next_state row.count row.back number) letter) }
    ensures memory { IsOkUnless result Refusal.Memory }
{
    let next = if number + 1 == row.count {
        row.back
    } else {
        number + 1
    };
    let mut edges = RawEdges::new(alloc);
    edges.push(
        alloc,
        RawEdge {
            label: Some(letter),
            targets: Numbers::one(next),
            marks: Marks::absent(),
        },
    )?;
    Ok(RawState {
        label: None,
        number,
        name: StateName::absent(),
        marks: Marks::absent(),
        edges,
    })
}
