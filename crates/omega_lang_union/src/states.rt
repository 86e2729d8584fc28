//! The states of a union, as a text writes them.

ghost use Rattle.std.specs.Prelude.{◌≡◌, ◌++◌, ◌≤◌, length, map, IfErr, IfOk, OnOk};
ghost use Rattle.omega_hoa_automaton.specs.Limits.{most_propositions};
ghost use Rattle.omega_hoa_edges.specs.Fitting.{IsLarge};
ghost use Rattle.omega_lang_product.specs.Joining.{joined_names};
ghost use Rattle.omega_lang_trim.specs.Written.{state_written};
ghost use Rattle.omega_lang_trim.specs.private.Writing.{HasDeepLabel, StatesHaveDeepLabel};
ghost use Rattle.omega_lang_union.specs.Parts.{state_in as state_of_part, states_in};
ghost use Rattle.omega_lang_union.specs.Union.{united};
ghost use Rattle.omega_lang_union.specs.private.Operands.{first_over, part_of, second_over};

use crate::edges::edges_in;
use crate::labels::state_label;
use crate::numbers::{number_after, numbers_after};
use crate::operand::Operand;
use crate::sharing::Sharing;
use omega_hoa_automaton::{Automaton, State};
use omega_hoa_syntax::RawState;
use omega_lang_product::places_among;
use omega_lang_trim::copied_state_name;
use omega_text::{ByteString, Marks, Refusal};
use std::alloc::Global;

/// Returns the states of both over the joined `names`. Fails with [TaskFault::TooLarge] if a label is deeper than
/// `MOST_DEPTH` as it is written.
pub(crate) fn states_of(
    alloc: Global,
    sharing: &Sharing,
    one: &Automaton,
    other: &Automaton,
    names: &[ByteString],
) -> Result<Vec<RawState>, Refusal>
    requires names { names.now ≡ joined_names one.now.propositions other.now.propositions }
    requires few { length names.now ≤ most_propositions }
    ensures states { IfOk result (λ states.
        states.items ≡ map state_written (united sharing.now one.now other.now).defined) }
    ensures err { IfErr result
        (IsLarge (StatesHaveDeepLabel (united sharing.now one.now other.now).defined)) }
{
    let mut states = Vec::new(alloc);
    match push_both(alloc, &mut states, sharing, one, other, names) {
        Ok(()) => Ok(states),
        Err(refusal) => Err(refusal),
    }
}

/// Appends the states of both over the joined `names`. Fails with [TaskFault::TooLarge] if a label is deeper than
/// `MOST_DEPTH` as it is written.
fn push_both(
    alloc: Global,
    states: &mut Vec<RawState>,
    sharing: &Sharing,
    one: &Automaton,
    other: &Automaton,
    names: &[ByteString],
) -> Result<(), Refusal>
    requires names { names.now ≡ joined_names one.now.propositions other.now.propositions }
    requires few { length names.now ≤ most_propositions }
    ensures states { OnOk result (states.new.items ≡
        states.old.items ++ map state_written (united sharing.now one.now other.now).defined) }
    ensures err { IfErr result
        (IsLarge (StatesHaveDeepLabel (united sharing.now one.now other.now).defined)) }
{
    push_first(alloc, states, sharing, one, names)?;
    push_second(alloc, states, sharing, one, other, names)?;
    Ok(())
}

/// Appends the states of `one` over the joined `names`. Fails with [TaskFault::TooLarge] if a label is deeper than
/// `MOST_DEPTH` as it is written.
fn push_first(
    alloc: Global,
    states: &mut Vec<RawState>,
    sharing: &Sharing,
    one: &Automaton,
    names: &[ByteString],
) -> Result<(), Refusal>
    requires { length names.now ≤ most_propositions }
    ensures states { OnOk result (states.new.items ≡ states.old.items
        ++ map state_written (states_in (first_over sharing.now names.now one.now) one.now.defined)) }
    ensures err { IfErr result (IsLarge
        (StatesHaveDeepLabel (states_in (first_over sharing.now names.now one.now) one.now.defined))) }
{
    let places = places_among(alloc, names, one.propositions())?;
    let first = Operand {
        automaton: one,
        places: places.as_slice(),
        states: 0,
        sets: 0,
        guard: sharing.first,
    };
    push_states(alloc, states, &first)
}

/// Appends the states of `other` over the joined `names`. Fails with [TaskFault::TooLarge] if a label is deeper than
/// `MOST_DEPTH` as it is written.
fn push_second(
    alloc: Global,
    states: &mut Vec<RawState>,
    sharing: &Sharing,
    one: &Automaton,
    other: &Automaton,
    names: &[ByteString],
) -> Result<(), Refusal>
    requires { length names.now ≤ most_propositions }
    ensures states { OnOk result (states.new.items ≡ states.old.items ++ map state_written
        (states_in (second_over sharing.now names.now one.now other.now) other.now.defined)) }
    ensures err { IfErr result (IsLarge (StatesHaveDeepLabel
        (states_in (second_over sharing.now names.now one.now other.now) other.now.defined))) }
{
    let other_places = places_among(alloc, names, other.propositions())?;
    let second = Operand {
        automaton: other,
        places: other_places.as_slice(),
        states: one.state_count(),
        sets: sharing.before,
        guard: sharing.second,
    };
    push_states(alloc, states, &second)
}

/// Appends the states of `operand` as the union has them. Fails with [TaskFault::TooLarge] if a label is deeper than
/// `MOST_DEPTH` as it is written.
pub(crate) fn push_states(
    alloc: Global,
    states: &mut Vec<RawState>,
    operand: &Operand<'_>,
) -> Result<(), Refusal>
    ensures states { OnOk result (states.new.items ≡ states.old.items
        ++ map state_written (states_in (part_of operand.now) operand.now.automaton.now.defined)) }
    ensures err { IfErr result (IsLarge
        (StatesHaveDeepLabel (states_in (part_of operand.now) operand.now.automaton.now.defined))) }
{
    for state in operand.automaton.defined() {
        let raw = state_in(alloc, operand, state)?;
        states.push(raw)?;
    }
    Ok(())
}

/// Returns `state` as the union has it. Fails with [TaskFault::TooLarge] if a label is deeper than `MOST_DEPTH` as it
/// is written.
fn state_in(alloc: Global, operand: &Operand<'_>, state: &State) -> Result<RawState, Refusal>
    ensures state { IfOk result
        (λ raw. raw ≡ state_written (state_of_part (part_of operand.now) state.now)) }
    ensures err { IfErr result
        (IsLarge (HasDeepLabel (state_of_part (part_of operand.now) state.now))) }
{
    let label = state_label(alloc, operand.places, state.label.as_ref())?;
    let number = number_after(operand.states, state.number)?;
    let name = copied_state_name(alloc, state)?;
    let marks = numbers_after(alloc, operand.sets, state.marks.as_slice())?;
    let edges = edges_in(alloc, operand, state)?;
    Ok(RawState {
        label,
        number,
        name,
        marks: Marks::of(marks),
        edges,
    })
}
