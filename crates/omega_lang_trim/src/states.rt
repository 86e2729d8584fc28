//! The states that stay, as a text writes them.

ghost use Rattle.std.specs.Prelude.{◌≡◌, length, map, IfErr, IfOk};
ghost use Rattle.omega_hoa_edges.specs.Fitting.{IsLarge};
ghost use Rattle.omega_lang_trim.specs.Trimmed.{state_kept, states_kept};
ghost use Rattle.omega_lang_trim.specs.Written.{state_written};
ghost use Rattle.omega_lang_trim.specs.private.Placed.{IsFew};
ghost use Rattle.omega_lang_trim.specs.private.Writing.{HasDeepLabel, StatesHaveDeepLabel};

use crate::edges::kept_edges;
use crate::labels::same_label;
use crate::names::copied_state_name;
use crate::numbers::stays;
use crate::places::place_in;
use indexmap::IndexSet;
use omega_hoa_automaton::{Automaton, Refusal, State};
use omega_hoa_syntax::RawState;
use omega_text::{Marks, Numbers};
use std::alloc::Global;

/// Returns the states of `automaton` that stay, in their order. Fails with [TaskFault::TooLarge] if a label is deeper
/// than `MOST_DEPTH` as it is written.
pub(crate) fn kept_states(
    alloc: Global,
    automaton: &Automaton,
    kept: &IndexSet<u32>,
) -> Result<Vec<RawState>, Refusal>
    requires { IsFew kept.now.keys }
    ensures states { IfOk result (λ states. states.items ≡ map state_written
        (states_kept kept.now.keys (length automaton.now.propositions) automaton.now.defined)) }
    ensures err { IfErr result (IsLarge (StatesHaveDeepLabel
        (states_kept kept.now.keys (length automaton.now.propositions) automaton.now.defined))) }
{
    let count = automaton.propositions().len();
    let mut states = Vec::with_capacity(alloc, kept.len())?;
    for state in automaton.defined() {
        if stays(kept, state.number) {
            states.push(kept_state(alloc, kept, count, state)?)?;
        }
    }
    Ok(states)
}

/// Returns `state`, which stays, over `count` propositions. Fails with [TaskFault::TooLarge] if a label is deeper than
/// `MOST_DEPTH` as it is written.
fn kept_state(
    alloc: Global,
    kept: &IndexSet<u32>,
    count: usize,
    state: &State,
) -> Result<RawState, Refusal>
    requires { IsFew kept.now.keys }
    ensures state { IfOk result
        (λ raw. raw ≡ state_written (state_kept kept.now.keys count state.now)) }
    ensures err { IfErr result (IsLarge (HasDeepLabel (state_kept kept.now.keys count state.now))) }
{
    let label = same_label(alloc, state.label.as_ref())?;
    let name = copied_state_name(alloc, state)?;
    let marks = Marks::of(Numbers::from_slice(alloc, state.marks.as_slice())?);
    let edges = kept_edges(alloc, kept, count, state)?;
    Ok(RawState {
        label,
        number: place_in(kept, state.number),
        name,
        marks,
        edges,
    })
}
