//! The machine of a controller.

use crate::choosing::Chooser;
use crate::machine::Machine;
use crate::parting::Parting;
use omega_hoa_automaton::Automaton;
use omega_hoa_edges::StatesByNumber;
use omega_text::{Refusal, TaskFault};
use std::alloc::Global;

/// Returns the machine of a controller: its states are those that choices reach from the first start, breadth first.
///
/// Fails with [`TaskFault::TooManyPropositions`] if the labels of a state mention too many inputs, and with
/// [`TaskFault::TooLarge`] if there is no start, if a state answers no edge at some letter, or if a limit is passed.
pub(crate) fn machine_of(
    alloc: Global,
    controller: &Automaton,
    parting: &Parting,
) -> Result<Machine, Refusal> {
    let Some(start) = start_of(controller) else {
        return Err(Refusal::Task(TaskFault::TooLarge));
    };
    let count = controller.propositions().len();
    let states = StatesByNumber::of(alloc, controller)?;
    let mut chooser = Chooser::new(alloc, parting);
    chooser.states.insert(start)?;
    for at in 0..controller.state_count() as usize {
        add_next(alloc, &states, count, at, &mut chooser)?;
    }
    Ok(chooser.into_machine())
}

/// Adds the choice of the state at a place among those that choices lead to, if there is one.
fn add_next(
    alloc: Global,
    states: &StatesByNumber<'_>,
    count: usize,
    at: usize,
    chooser: &mut Chooser<'_>,
) -> Result<(), Refusal> {
    let Some(number) = chooser.states.get_index(at).copied() else {
        return Ok(());
    };
    let Some(state) = states.find(number) else {
        return Err(Refusal::Task(TaskFault::TooLarge));
    };
    chooser.add_state(alloc, count, state)
}

/// Returns the first state that a controller begins in.
fn start_of(controller: &Automaton) -> Option<u32> {
    controller.starts().first()?.as_slice().first().copied()
}
