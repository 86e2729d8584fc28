//! One answer of a controller to each letter of the environment, of those that it has.
ghost use Rattle.std.specs.Prelude.{IfErr, IfOk};
ghost use Rattle.omega_ltl_determinization.specs.Deterministic.{IsWellFormed};
ghost use Rattle.omega_ltl_determinization.specs.Refusing.{IsLarge};

use crate::projection::{Projection, is_empty, remove_letters};
use omega_graph_search::{NONE, NumberTable, number_of};
use omega_ltl_determinization::{
    DeterministicAutomaton, DeterministicBuilder, MOST_NAMES, MOST_STATES, all_letters,
};
use omega_text::Refusal;
use std::alloc::{AllocError, Global};

/// Returns an automaton in which each state has one edge of `automaton` at each letter of the environment that it
/// answers. The system controls the names with the numbers `controlled`. What it may do to go along an edge stays.
///
/// Edges to states that are found already are chosen before others, so that fewer states are reached, and the others
/// are left out. Fails with [`TaskFault::TooLarge`] if a limit is passed. Takes time of 2^names bits for each edge and
/// each controlled name.
pub(crate) fn with_one_answer(
    alloc: Global,
    automaton: DeterministicAutomaton,
    controlled: &[u32],
) -> Result<DeterministicAutomaton, Refusal>
    ensures automaton { IfOk result IsWellFormed }
    ensures err { IfErr result IsLarge }
{
    let names = automaton.names.min(MOST_NAMES);
    let all = all_letters(alloc, names)?;
    let mut builder = DeterministicBuilder::new(alloc, names);
    let mut choice = EdgeChoice {
        automaton: &automaton,
        numbers: NumberTable::filled(alloc, automaton.ends.len(), NONE)?,
        order: Vec::new(alloc),
        places: Vec::new(alloc),
        left: Vec::new(alloc),
        projection: Projection::new(alloc, controlled),
    };
    choice.number_of_state(automaton.start)?;
    choice.add_states(all.as_slice(), &mut builder)?;
    builder.finish(names, 0)
}

/// An automaton that is made of chosen edges of another one.
#[derive(Drop)]
struct EdgeChoice<'a> {
    automaton: &'a DeterministicAutomaton,
    // By state its number in the new automaton, and the states in the order of these.
    numbers: NumberTable,
    order: Vec<u32>,
    // The edges of a state, in the order in which they are chosen.
    places: Vec<u32>,
    // The letters that no edge of the state is chosen for.
    left: Vec<u64>,
    projection: Projection<'a>,
}

impl<'a> EdgeChoice<'a> {
    /// Adds the states that the start leads to.
    fn add_states(&mut self, all: &[u64], builder: &mut DeterministicBuilder) -> Result<(), Refusal>
        ensures { IfErr result IsLarge }
    {
        for number in 0..MOST_STATES {
            let state = match self.order.get(number) {
                Some(state) => *state,
                None => break,
            };
            self.add_state(state, all, builder)?;
        }
        Ok(())
    }

    /// Adds a state with the edges that are chosen.
    fn add_state(
        &mut self,
        state: u32,
        all: &[u64],
        builder: &mut DeterministicBuilder,
    ) -> Result<(), Refusal>
        ensures { IfErr result IsLarge }
    {
        self.left.clear();
        self.left.extend_from_slice(all)?;
        self.find_places(state)?;
        for index in 0..self.places.len() {
            if let Some(place) = self.places.get(index) {
                let place = *place;
                self.add_edge(place, builder)?;
            }
        }
        builder.end_state()
    }

    /// Adds the edge at a place for those of its letters that are left, if there are some.
    fn add_edge(&mut self, place: u32, builder: &mut DeterministicBuilder) -> Result<(), Refusal>
        ensures { IfErr result IsLarge }
    {
        let automaton = self.automaton;
        self.projection
            .set_common(automaton.letters_of(place), self.left.as_slice())?;
        if is_empty(self.projection.letters()) {
            return Ok(());
        }
        let number = self.number_of_state(automaton.target(place))?;
        builder.add_edge(number, automaton.colour(place), self.projection.letters())?;
        self.projection.add_controlled()?;
        remove_letters(&mut self.left, self.projection.letters());
        Ok(())
    }

    /// Finds the edges of a state: first those to states that are found, in the order of their numbers.
    fn find_places(&mut self, state: u32) -> Result<(), AllocError> {
        let automaton = self.automaton;
        self.places.clear();
        for place in automaton.places_of(state) {
            self.places.push(place)?;
        }
        let numbers = &self.numbers;
        self.places
            .sort_by_key(|place| numbers.at(automaton.target(*place)))
    }

    /// Returns the number of a state in the new automaton.
    fn number_of_state(&mut self, state: u32) -> Result<u32, AllocError> {
        let number = self.numbers.at(state);
        if number != NONE {
            return Ok(number);
        }
        let number = number_of(self.order.len());
        self.numbers.put(state, number);
        self.order.push(state)?;
        Ok(number)
    }
}
