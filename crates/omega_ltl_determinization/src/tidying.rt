ghost use Rattle.std.specs.Prelude.{◌≡◌, IfErr, IfOk};
ghost use Rattle.omega_ltl_determinization.specs.Deterministic.{IsWellFormed};
ghost use Rattle.omega_ltl_determinization.specs.Refusing.{IsLarge};

use crate::colour_lowering::lowered_colours;
use crate::deterministic::DeterministicAutomaton;
use crate::deterministic_builder::DeterministicBuilder;
use crate::fates::{Fate, Fates, fates_of};
use crate::letters::all_letters;
use crate::limits::{MOST_NAMES, MOST_STATES};
use crate::state_classes::{StateClasses, state_classes};
use omega_graph_search::{NONE, NumberTable, number_of};
use omega_text::Refusal;
use std::alloc::{AllocError, Global};

/// Returns an automaton that is to accept the same words, with as few states and as small colours as are found: in each
/// component the least colours (Carton, Maceiras 1999), no edges to states without accepted words, one state from which
/// each word is accepted, and states with the same edges joined. Nothing is proved of its words.
pub fn smaller_automaton(
    alloc: Global,
    automaton: DeterministicAutomaton,
) -> Result<DeterministicAutomaton, Refusal>
    requires { IsWellFormed automaton }
    ensures automaton { IfOk result IsWellFormed }
    ensures names { IfOk result (λ found. found.names ≡ automaton.names) }
    ensures err { IfErr result IsLarge }
{
    let mut current = automaton;
    // Each round but the last drops a state.
    for _ in 0..=MOST_STATES {
        let next = tidied_once(alloc, &current)?;
        let is_last = next.state_count() == current.state_count();
        current = next;
        if is_last {
            break;
        }
    }
    Ok(current)
}

/// Returns an automaton that is to accept the same words, made smaller in one round.
fn tidied_once(
    alloc: Global,
    automaton: &DeterministicAutomaton,
) -> Result<DeterministicAutomaton, Refusal>
    requires { IsWellFormed automaton.now }
    ensures automaton { IfOk result IsWellFormed }
    ensures names { IfOk result (λ found. found.names ≡ automaton.now.names) }
    ensures err { IfErr result IsLarge }
{
    let colours = lowered_colours(alloc, automaton)?;
    let fates = fates_of(alloc, automaton, &colours)?;
    let classes = state_classes(alloc, automaton, &colours, &fates)?;
    let mut builder = DeterministicBuilder::new(alloc, automaton.names);
    let mut rebuilding = Rebuilding {
        automaton,
        colours: &colours,
        fates: &fates,
        classes: &classes,
        numbers: NumberTable::filled(alloc, classes.count as usize, NONE)?,
        order: Vec::new(alloc),
    };
    rebuilding.rebuild(alloc, &mut builder)?;
    builder.finish(automaton.names, 0)
}

/// An automaton that is made of another one.
#[derive(Drop)]
struct Rebuilding<'a> {
    automaton: &'a DeterministicAutomaton,
    colours: &'a NumberTable,
    fates: &'a Fates,
    classes: &'a StateClasses,
    // By class its number in the new automaton, and a state of each class in the order of these.
    numbers: NumberTable,
    order: Vec<u32>,
}

impl<'a> Rebuilding<'a> {
    /// Builds a state for each class that the start leads to.
    fn rebuild(&mut self, alloc: Global, builder: &mut DeterministicBuilder) -> Result<(), Refusal>
        ensures { IfErr result IsLarge }
    {
        let all = all_letters(alloc, self.automaton.names.min(MOST_NAMES))?;
        self.number_of_state(self.automaton.start)?;
        for number in 0..MOST_STATES {
            let state = match self.order.get(number) {
                Some(state) => *state,
                None => break,
            };
            self.add_state(state, all.as_slice(), builder)?;
        }
        Ok(())
    }

    /// Builds the state for the class of a state.
    fn add_state(
        &mut self,
        state: u32,
        all: &[u64],
        builder: &mut DeterministicBuilder,
    ) -> Result<(), Refusal>
        ensures { IfErr result IsLarge }
    {
        if self.fates.of(state) == Fate::Universal {
            builder.add_edge(self.number_of_state(state)?, 0, all)?;
            return builder.end_state();
        }
        let automaton = self.automaton;
        for edge in automaton.places_of(state) {
            let target = automaton.target(edge);
            let colour = match self.fates.of(target) {
                Fate::Empty => continue,
                Fate::Universal => 0,
                Fate::Open => self.colours.at(edge),
            };
            let number = self.number_of_state(target)?;
            builder.add_edge(number, colour, automaton.letters_of(edge))?;
        }
        builder.end_state()
    }

    /// Returns the number of the class of a state in the new automaton.
    fn number_of_state(&mut self, state: u32) -> Result<u32, AllocError> {
        let class = self.classes.of.at(state);
        let number = self.numbers.at(class);
        if number != NONE {
            return Ok(number);
        }
        let number = number_of(self.order.len());
        self.numbers.put(class, number);
        self.order.push(state)?;
        Ok(number)
    }
}
