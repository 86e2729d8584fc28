//! A deterministic automaton as flat arrays, as an automaton of the Hanoi format, by way of what a text writes of it.
ghost use Rattle.std.specs.Prelude.{IfErr, IfOk};
ghost use Rattle.omega_ltl_determinization.specs.Refusing.{IsLarge};
ghost use Rattle.omega_ltl_deterministic.specs.Candidate.{IsCandidate};

use crate::acceptance::{parity_formula, parity_name};
use crate::cubes::cubes_of;
use crate::judging::is_candidate;
use crate::labels::{label_of, size_of};
use crate::limits::MOST_PARITY_SETS;
use omega_graph_search::number_of;
use omega_hoa_automaton::{Automaton, MOST_TOTAL_SIZE, RawAutomaton, StateName, automaton_of};
use omega_hoa_expression::MOST_SIZE;
use omega_hoa_label::RawLabel;
use omega_hoa_syntax::{RawEdge, RawEdges, RawItem, RawState};
use omega_ltl_determinization::{DeterministicAutomaton, MOST_NAMES};
use omega_text::{ByteString, Marks, Numbers, Refusal, Seq, TaskFault, copy_of_strings};
use std::alloc::Global;

/// Returns an automaton with these propositions as one of the Hanoi format, with a mark for each colour. Fails with
/// [`TaskFault::TooLarge`] if it has over [`MOST_PARITY_SETS`] colours, or if labels pass their limits.
pub(crate) fn automaton_over(
    alloc: Global,
    automaton: &DeterministicAutomaton,
    propositions: &[ByteString],
) -> Result<Automaton, Refusal>
    ensures candidate { IfOk result (IsCandidate propositions.now) }
    ensures err { IfErr result IsLarge }
{
    match automaton_as_written(alloc, automaton, propositions) {
        Ok(formed) => {
            // No automaton comes out otherwise.
            if is_candidate(&formed, propositions) {
                Ok(formed)
            } else {
                Err(Refusal::Task(TaskFault::TooLarge))
            }
        }
        Err(refusal) => Err(as_too_large(refusal)),
    }
}

/// Returns [TaskFault::TooLarge] in place of any refusal but [Refusal::Memory]: the others are of limits.
fn as_too_large(refusal: Refusal) -> Refusal
    ensures { IsLarge result }
{
    match refusal {
        Refusal::Memory => Refusal::Memory,
        _ => Refusal::Task(TaskFault::TooLarge),
    }
}

/// Returns an automaton with these propositions as one of the Hanoi format.
fn automaton_as_written(
    alloc: Global,
    automaton: &DeterministicAutomaton,
    propositions: &[ByteString],
) -> Result<Automaton, Refusal> {
    let colours = colour_count(automaton);
    if colours > MOST_PARITY_SETS {
        return Err(Refusal::Task(TaskFault::TooLarge));
    }
    let items = header(alloc, automaton, propositions, colours)?;
    let states = states_of(alloc, automaton)?;
    let version = ByteString::from_slice(alloc, b"v1")?;
    automaton_of(
        alloc,
        RawAutomaton {
            version,
            items: Seq::from_vec(items),
            states: Seq::from_vec(states),
        },
    )
}

/// Returns one more than the greatest colour, at least 1.
fn colour_count(automaton: &DeterministicAutomaton) -> u32 {
    let mut count = 1;
    for edge in automaton.edges.as_slice() {
        count = edge.colour.saturating_add(1).max(count);
    }
    count
}

/// Returns the header.
fn header(
    alloc: Global,
    automaton: &DeterministicAutomaton,
    propositions: &[ByteString],
    colours: u32,
) -> Result<Vec<RawItem>, Refusal> {
    let mut items = Vec::new(alloc);
    items.push(RawItem::States(automaton.state_count()))?;
    items.push(RawItem::Start(Numbers::one(automaton.start)))?;
    items.push(RawItem::Propositions {
        count: number_of(propositions.len()),
        names: Seq::from_vec(copy_of_strings(alloc, propositions)?),
    })?;
    items.push(RawItem::AccName(parity_name(alloc, colours)?))?;
    items.push(RawItem::Acceptance {
        count: colours,
        formula: parity_formula(alloc, colours)?,
    })?;
    Ok(items)
}

/// Returns the states, in the order of their numbers.
fn states_of(alloc: Global, automaton: &DeterministicAutomaton) -> Result<Vec<RawState>, Refusal> {
    let mut states = Vec::new(alloc);
    let mut room = MOST_TOTAL_SIZE as usize;
    for number in 0..automaton.state_count() {
        let edges = edges_of(alloc, automaton, number, &mut room)?;
        states.push(RawState {
            label: None,
            number,
            name: StateName::absent(),
            marks: Marks::absent(),
            edges,
        })?;
    }
    Ok(states)
}

/// Returns the edges of a state. `room` is what labels may take.
fn edges_of(
    alloc: Global,
    automaton: &DeterministicAutomaton,
    state: u32,
    room: &mut usize,
) -> Result<RawEdges, Refusal> {
    let mut edges = RawEdges::new(alloc);
    for place in automaton.places_of(state) {
        let label = label_at(alloc, automaton, place, room)?;
        edges.push(
            alloc,
            RawEdge {
                label: Some(label),
                targets: Numbers::one(automaton.target(place)),
                marks: Marks::of(Numbers::one(automaton.colour(place))),
            },
        )?;
    }
    Ok(edges)
}

/// Returns the label of the edge at a place, and takes what it takes from `room`. Fails with [`TaskFault::TooLarge`]
/// if that is too much.
fn label_at(
    alloc: Global,
    automaton: &DeterministicAutomaton,
    place: u32,
    room: &mut usize,
) -> Result<RawLabel, Refusal> {
    let names = automaton.names.min(MOST_NAMES);
    let cubes = cubes_of(alloc, automaton.letters_of(place), names)?;
    let size = size_of(cubes.as_slice());
    if size > MOST_SIZE as usize || size > *room {
        return Err(Refusal::Task(TaskFault::TooLarge));
    }
    *room -= size;
    label_of(alloc, cubes.as_slice())
}
