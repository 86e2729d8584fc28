ghost use Rattle.std.specs.Prelude.{IfErr};
ghost use Rattle.omega_ltl_determinization.specs.Refusing.{IsLarge};

use crate::letter_sets::LetterSets;
use crate::letters::{first_letter, has_letter};
use crate::limits::MOST_STEPS;
use crate::nondeterministic::NondeterministicAutomaton;
use omega_graph_search::number_of;
use omega_text::{Refusal, TaskFault};
use std::alloc::{AllocError, Global};

/// A step of a nondeterministic automaton at a letter.
#[derive(Clone, Copy, Debug, PartialEq, Eq)]
pub(crate) struct Step {
    /// The state that it leads to.
    pub target: u32,
    /// The sets that its edge is in.
    pub marks: u64,
}

/// The steps of a nondeterministic automaton by state and class of letters.
#[derive(Debug, Drop)]
pub(crate) struct Steps {
    pub states: u32,
    pub classes: u32,
    // The index after the last step of a state at a class, state by state, and class by class within.
    ends: Vec<u32>,
    steps: Vec<Step>,
}

impl Steps {
    /// Returns the steps of an automaton whose letters have these classes. Fails with [`TaskFault::TooLarge`] if there
    /// are over [`MOST_STEPS`].
    pub(crate) fn of(
        alloc: Global,
        automaton: &NondeterministicAutomaton,
        classes: &LetterSets,
    ) -> Result<Steps, Refusal>
        ensures { IfErr result IsLarge }
    {
        let mut steps = Steps::empty(alloc, automaton.state_count(), classes.len());
        for state in 0..automaton.state_count() {
            for class in 0..classes.len() {
                let letter = first_letter(classes.at(class));
                steps.add(automaton, state, letter)?;
                if steps.steps.len() > MOST_STEPS || steps.ends.len() > MOST_STEPS {
                    return Err(Refusal::Task(TaskFault::TooLarge));
                }
            }
        }
        Ok(steps)
    }

    /// Returns no steps of so many states at so many classes.
    pub(crate) fn empty(alloc: Global, states: u32, classes: u32) -> Steps {
        Steps {
            states,
            classes,
            ends: Vec::new(alloc),
            steps: Vec::new(alloc),
        }
    }

    /// Adds the steps of the next state and class.
    pub(crate) fn push(&mut self, steps: &[Step]) -> Result<(), AllocError> {
        self.steps.extend_from_slice(steps)?;
        self.ends.push(number_of(self.steps.len()))?;
        Ok(())
    }

    /// Adds the steps of a state at a letter.
    fn add(
        &mut self,
        automaton: &NondeterministicAutomaton,
        state: u32,
        letter: u32,
    ) -> Result<(), AllocError> {
        for edge in automaton.edges_of(state) {
            if edge.target < self.states && has_letter(automaton.label(edge.label), letter) {
                self.steps.push(Step {
                    target: edge.target,
                    marks: edge.marks,
                })?;
            }
        }
        self.ends.push(number_of(self.steps.len()))?;
        Ok(())
    }

    /// Returns the steps of a state at a class of letters, or none past the last.
    #[inline(always)]
    pub(crate) fn at(&self, state: u32, class: u32) -> &[Step] {
        let place = (state as usize)
            .wrapping_mul(self.classes as usize)
            .wrapping_add(class as usize);
        let first = self.end_before(place);
        let end = self.ends.get(place).copied().unwrap_or(0);
        match self.steps.get(first as usize..end as usize) {
            Some(steps) => steps,
            None => &[],
        }
    }

    /// Returns the steps of a state at all classes of letters, or none past the last state.
    pub(crate) fn of_state(&self, state: u32) -> &[Step] {
        let place = (state as usize).wrapping_mul(self.classes as usize);
        let first = self.end_before(place);
        let end = self.end_before(place.wrapping_add(self.classes as usize));
        match self.steps.get(first as usize..end as usize) {
            Some(steps) => steps,
            None => &[],
        }
    }

    /// Returns the index of the first step at a place of the list of ends.
    fn end_before(&self, place: usize) -> u32 {
        if place == 0 {
            return 0;
        }
        self.ends.get(place - 1).copied().unwrap_or(0)
    }

    /// Returns for each state the index after its last step, and for each step its target.
    pub(crate) fn graph(&self, alloc: Global) -> Result<(Vec<u32>, Vec<u32>), AllocError> {
        let mut ends = Vec::with_capacity(alloc, self.states as usize)?;
        for state in 0..self.states {
            let next = (state as usize)
                .wrapping_add(1)
                .wrapping_mul(self.classes as usize);
            ends.push(self.end_before(next))?;
        }
        let mut targets = Vec::with_capacity(alloc, self.steps.len())?;
        for step in &self.steps {
            targets.push(step.target)?;
        }
        Ok((ends, targets))
    }
}
