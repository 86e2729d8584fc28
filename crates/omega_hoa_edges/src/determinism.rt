//! Whether an automaton is deterministic: it has at most one start, and at each letter a state has at most one edge.

ghost use Rattle.std.specs.Prelude.{◌≡◌, ◌≤◌, length, IfErr, OnOk};
ghost use Rattle.omega_hoa_edges.specs.Determinism.{AreExclusiveBelow};
ghost use Rattle.omega_hoa_edges.specs.AutomatonLabels.{labels_at, labels_of as labels_of_state};
ghost use Rattle.omega_hoa_edges.specs.Letters.{AreExclusive};
ghost use Rattle.omega_hoa_edges.specs.Refusing.{AreUnjudged, IsStartRefusal};
ghost use Rattle.omega_hoa_edges.specs.private.Refused.{IsUnjudgedAt, IsUnjudgedOf};

use crate::exclusive::check_exclusive_labels;
use crate::is_full;
use crate::labels::labels_of;
use crate::state_labels::StateLabels;
use crate::states_by_number::StatesByNumber;
use crate::undefined::undefined_state;
use omega_hoa_automaton::{Automaton, State};
use omega_text::{Refusal, TaskFault};
use std::alloc::Global;

/// Checks that there is at most one start. Fails with [TaskFault::NotDeterministic] with the state of the second.
pub fn check_one_start(automaton: &Automaton) -> Result<(), Refusal>
    ensures one { OnOk result (length automaton.now.starts ≤ 1) }
    ensures err { IfErr result (IsStartRefusal automaton.now) }
{
    match automaton.starts() {
        [_, second, ..] => {
            let state = second.as_slice().first().copied().unwrap_or(0);
            Err(Refusal::Task(TaskFault::NotDeterministic(state as usize)))
        }
        _ => Ok(()),
    }
}

/// Checks that at each letter a state has at most one edge, state by state in the order of their numbers.
///
/// Fails with the refusal of the first state that has one:
///
/// - [TaskFault::NotDeterministic] with its number, if two of its edges can be taken at one letter.
/// - [TaskFault::TooManyPropositions] if the labels of two of its edges together mention over `MOST_MENTIONED`
///   propositions and `is_satisfiable` gave them up.
/// - [TaskFault::TooLarge] if the label of an edge, or two together, are deeper than `MOST_DEPTH` or have over
///   `MOST_SIZE` atoms and operators.
///
/// Judges each two edges of a state together, but for many conjunctions of literals over the first twelve propositions,
/// which are added up ([`check_exclusive_labels`]). A state with an edge for each valuation needs no judging.
pub fn check_deterministic_states(alloc: Global, automaton: &Automaton) -> Result<(), Refusal>
    ensures apart { OnOk result (AreExclusiveBelow automaton.now automaton.now.states) }
    ensures refused { IfErr result (AreUnjudged automaton.now) }
{
    match StatesByNumber::of(alloc, automaton) {
        Ok(states) => check_among(alloc, automaton, &states),
        Err(refusal) => Err(refusal),
    }
}

/// Checks the states of `automaton` as `check_deterministic_states` does. `states` are those of `automaton`.
fn check_among(
    alloc: Global,
    automaton: &Automaton,
    states: &StatesByNumber<'_>,
) -> Result<(), Refusal>
    requires { states.now ≡ automaton.now }
    ensures apart { OnOk result (AreExclusiveBelow automaton.now automaton.now.states) }
    ensures refused { IfErr result (AreUnjudged automaton.now) }
{
    let count = automaton.propositions().len();
    for number in 0..automaton.state_count() {
        check_state(alloc, count, states, number)?;
    }
    Ok(())
}

/// Checks the edges of the state with the number `number`, whose labels are over `count` propositions.
fn check_state(
    alloc: Global,
    count: usize,
    states: &StatesByNumber<'_>,
    number: u32,
) -> Result<(), Refusal>
    requires { count ≡ length states.now.propositions }
    ensures apart { OnOk result (AreExclusive (labels_at states.now number)) }
    ensures err { IfErr result (IsUnjudgedAt states.now number) }
{
    let spare = undefined_state(alloc, number);
    let state = states.find(number).unwrap_or(&spare);
    check_edges(alloc, count, state)
}

/// Checks the edges of `state`, whose labels are over `count` propositions.
fn check_edges(alloc: Global, count: usize, state: &State) -> Result<(), Refusal>
    ensures apart { OnOk result (AreExclusive (labels_of_state count state.now)) }
    ensures err { IfErr result (IsUnjudgedOf count state.now) }
{
    if is_full(count, state) {
        return Ok(());
    }
    let labels = labels_of(alloc, count, state)?;
    let state = StateLabels {
        number: state.number,
        labels: labels.as_slice(),
    };
    check_exclusive_labels(alloc, &state)
}
