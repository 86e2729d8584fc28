//! The states, found breadth first.

ghost use Rattle.std.specs.Prelude.{◌≡◌, ◌<◌, ◌≤◌, ◌+◌, ◌^◌, ℕ, List, Bool, All, IfOk, OnOk, length};
ghost use Rattle.omega_hoa_automaton.specs.Limits.{most_propositions};
ghost use Rattle.omega_hoa_edges.specs.Limits.{most_states};
ghost use Rattle.omega_circuit_automaton.specs.private.Cuts.{AddsValuations, valuation_at};
ghost use Rattle.omega_circuit_automaton.specs.private.Lanes.{IsLaneOf};
ghost use Rattle.omega_circuit_automaton.specs.private.Written.{AreStates, IsExploring, IsWrittenState};
ghost use Rattle.omega_circuit_automaton.specs.private.Written.{digit_of, valuation_name};

use crate::budget::Budget;
use crate::evaluator::Evaluator;
use crate::lanes::{Lane, Lanes, MOST_LANES};
use crate::splitting::{Exploration, edges_of};
use crate::valuations::Valuations;
use omega_circuit::Circuit;
use omega_hoa_automaton::StateName;
use omega_hoa_edges::MOST_STATES;
use omega_hoa_syntax::RawState;
use omega_text::{ByteString, Marks, Refusal, TaskFault};
use std::alloc::Global;

/// Returns the states of the automaton of a circuit, as a text writes them: the valuations of the latches that are
/// reached, numbered breadth first from the resets. Fails with [TaskFault::TooLarge] if a limit is passed.
pub(crate) fn explore(alloc: Global, circuit: &Circuit) -> Result<Vec<RawState>, Refusal>
    requires { length circuit.now.inputs + length circuit.now.outputs ≤ most_propositions }
    ensures states { IfOk result (λ states. AreStates circuit.now states.items) }
    ensures few { IfOk result (λ states. length states.items ≤ most_states) }
{
    let first = circuit.first_latches(alloc)?;
    let evaluator = Evaluator::new(alloc, circuit)?;
    let valuations = Valuations::new(alloc, first)?;
    let mut exploration = Exploration {
        evaluator,
        budget: Budget::new(),
        valuations,
    };
    let mut lanes = Lanes::new(alloc, circuit)?;
    let mut states = Vec::new(alloc);
    while states.len() < exploration.valuations.all.len() {
        let found = exploration.valuations.all.as_slice();
        let first = states.len();
        let last = found.len().min(first + MOST_LANES);
        lanes.evaluate(circuit, &found[first..last])?;
        push_states(alloc, circuit, &mut exploration, &lanes, last, &mut states)?;
    }
    Ok(states)
}

/// Appends the states that were evaluated at once, up to the one before `last`. Valuations that they lead to and that
/// are not there are appended. Fails with [TaskFault::TooLarge] if a limit is passed.
fn push_states(
    alloc: Global,
    circuit: &Circuit,
    exploration: &mut Exploration,
    lanes: &Lanes,
    last: usize,
    states: &mut Vec<RawState>,
) -> Result<(), Refusal>
    requires few { length circuit.now.inputs + length circuit.now.outputs ≤ most_propositions }
    requires exploring { IsExploring circuit.now exploration.old.valuations.all.items states.old.items }
    requires small { length states.old.items ≤ most_states }
    requires first { length states.old.items ≤ last }
    requires last { last ≤ length exploration.old.valuations.all.items }
    requires few_lanes { last ≤ length states.old.items + 64 }
    requires lanes { (lane : ℕ) → length states.old.items + lane < last → IsLaneOf circuit.now
        (valuation_at exploration.old.valuations.all.items (length states.old.items + lane)) (2 ^ lane)
        lanes.now.known.items }
    ensures exploring { OnOk result
        (IsExploring circuit.now exploration.new.valuations.all.items states.new.items) }
    ensures long { OnOk result (length states.new.items ≡ last) }
    ensures within { OnOk result (last ≤ length exploration.new.valuations.all.items) }
    ensures small { OnOk result (last ≤ most_states) }
{
    let first = states.len();
    for number in first..last {
        if exploration.valuations.all.len() > MOST_STATES {
            return Err(Refusal::Task(TaskFault::TooLarge));
        }
        let lane = lanes.lane(number - first);
        let state = state_of(alloc, circuit, exploration, lane, number)?;
        states.push(state)?;
    }
    Ok(())
}

/// Returns the state with a number. Valuations that it leads to and that are not there are appended.
fn state_of(
    alloc: Global,
    circuit: &Circuit,
    exploration: &mut Exploration,
    lane: Lane<'_>,
    number: usize,
) -> Result<RawState, Refusal>
    requires few { length circuit.now.inputs + length circuit.now.outputs ≤ most_propositions }
    requires low { number < length exploration.old.valuations.all.items }
    requires lane { IsLaneOf circuit.now (valuation_at exploration.old.valuations.all.items number)
        lane.bit lane.known.now }
    requires small { number ≤ most_states }
    requires known { All (λ (valuation : List Bool). length valuation ≡ length circuit.now.latches)
        exploration.old.valuations.all.items }
    ensures state { IfOk result
        (IsWrittenState circuit.now exploration.new.valuations.all.items number) }
    ensures adds { OnOk result (AddsValuations (length circuit.now.latches)
        exploration.old.valuations.all.items exploration.new.valuations.all.items) }
{
    let known = exploration.valuations.all.as_slice();
    let valuation = known[number].as_slice();
    let latches = Vec::from_slice(alloc, valuation)?;
    let edges = edges_of(alloc, circuit, exploration, lane, latches.as_slice())?;
    Ok(RawState {
        label: None,
        number: number as u32,
        name: state_name(alloc, latches.as_slice())?,
        marks: Marks::absent(),
        edges,
    })
}

/// Returns the name of a state: the values of the latches in order, or no name if there are no latches.
fn state_name(alloc: Global, latches: &[bool]) -> Result<StateName, Refusal>
    ensures { IfOk result (λ name. name ≡ valuation_name latches.now) }
{
    if latches.is_empty() {
        return Ok(StateName::absent());
    }
    let mut digits = Vec::with_capacity(alloc, latches.len())?;
    for value in latches {
        digits.push(digit_of(*value))?;
    }
    let name = ByteString::from_slice(alloc, digits.as_slice())?;
    Ok(StateName::of(alloc, name)?)
}

/// Returns the digit of a value.
fn digit_of(value: bool) -> u8
    ensures { result ≡ digit_of value }
{
    if value { b'1' } else { b'0' }
}
