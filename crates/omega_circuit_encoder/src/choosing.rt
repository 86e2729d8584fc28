//! What the states of a controller choose.

use crate::candidates::{Candidate, Candidates};
use crate::choice::Choice;
use crate::machine::Machine;
use crate::parting::Parting;
use crate::witness::WitnessSearch;
use indexmap::IndexSet;
use omega_graph_search::number_of;
use omega_hoa_automaton::State;
use omega_text::{Refusal, TaskFault};
use std::alloc::Global;

/// Finds the choices of states.
#[derive(Drop)]
pub(crate) struct Chooser<'a> {
    parting: &'a Parting,
    /// The states that choices lead to, and the start before them.
    pub(crate) states: IndexSet<u32>,
    // The choices so far.
    machine: Machine,
    candidates: Candidates,
    // By edge of the state whether it is taken at some letter.
    is_taken: Vec<bool>,
    search: WitnessSearch,
}

impl<'a> Chooser<'a> {
    /// Returns a chooser that knows no state.
    pub(crate) fn new(alloc: Global, parting: &'a Parting) -> Chooser<'a> {
        Chooser {
            parting,
            states: IndexSet::new(alloc),
            machine: Machine::new(alloc),
            candidates: Candidates::new(alloc),
            is_taken: Vec::new(alloc),
            search: WitnessSearch::new(alloc),
        }
    }

    /// Returns the choices so far.
    pub(crate) fn into_machine(self) -> Machine {
        let Chooser { machine, .. } = self;
        machine
    }

    /// Adds the choice of a state over `count` propositions to the machine. At each letter it is an edge that was taken
    /// at a letter before, if there is one, else the first edge that answers.
    ///
    /// Fails with [`TaskFault::TooManyPropositions`] if the labels mention too many inputs, and with
    /// [`TaskFault::TooLarge`] if no edge answers some letter or a limit is passed.
    pub(crate) fn add_state(
        &mut self,
        alloc: Global,
        count: usize,
        state: &State,
    ) -> Result<(), Refusal> {
        self.candidates
            .take_state(alloc, self.parting, count, state)?;
        self.is_taken = vec![in alloc; false; state.edges.len()]?;
        let inputs = self.candidates.input_count();
        let root = self.choice(alloc, 0, inputs)?;
        self.machine.roots.push(root)?;
        Ok(())
    }

    /// Returns the number of the choice among the candidates from `first` on, where the inputs from `left` on have
    /// values. Recurses as deep as there are inputs left.
    fn choice(&mut self, alloc: Global, first: usize, left: usize) -> Result<u32, Refusal> {
        if let Some(step) = self.step_for_all(alloc, first)? {
            return Ok(step);
        }
        if left == 0 {
            return Err(Refusal::Task(TaskFault::TooLarge));
        }
        let Some(input) = self.candidates.input(left - 1) else {
            return Err(Refusal::Task(TaskFault::TooLarge));
        };
        if !self.candidates.mention(first, input) {
            return self.choice(alloc, first, left - 1);
        }
        let mark = self.candidates.restrict(first, input, false)?;
        let low = self.choice(alloc, mark.first, left - 1)?;
        self.candidates.forget(mark);
        let mark = self.candidates.restrict(first, input, true)?;
        let high = self.choice(alloc, mark.first, left - 1)?;
        self.candidates.forget(mark);
        self.machine
            .choices
            .number(Choice::Branch { input, low, high })
    }

    /// Returns the number of a step that answers whatever the inputs are that have no value: by an edge that was taken,
    /// else by the first candidate from `first` on.
    fn step_for_all(&mut self, alloc: Global, first: usize) -> Result<Option<u32>, Refusal> {
        for place in first..self.candidates.len() {
            if let Some(candidate) = self.decided_at(place) {
                if self.was_taken(candidate.edge) {
                    if let Some(step) = self.step_by(alloc, candidate)? {
                        return Ok(Some(step));
                    }
                }
            }
        }
        for place in first..self.candidates.len() {
            let Some(candidate) = self.decided_at(place) else {
                return Ok(None);
            };
            if let Some(step) = self.step_by(alloc, candidate)? {
                return Ok(Some(step));
            }
        }
        Ok(None)
    }

    /// Returns the candidate at a place if its label mentions no input.
    fn decided_at(&self, place: usize) -> Option<Candidate> {
        let candidate = self.candidates.at(place)?;
        if self.candidates.has_input(self.parting, candidate.label) {
            return None;
        }
        Some(candidate)
    }

    /// Whether an edge was taken.
    fn was_taken(&self, edge: usize) -> bool {
        match self.is_taken.as_slice().get(edge) {
            Some(is_taken) => *is_taken,
            None => false,
        }
    }

    /// Returns the number of the step by a candidate whose label mentions no input, if that can be true.
    fn step_by(&mut self, alloc: Global, candidate: Candidate) -> Result<Option<u32>, Refusal> {
        if !self
            .search
            .find(&mut self.candidates.arena, candidate.label)?
        {
            return Ok(None);
        }
        if let Some(flag) = self.is_taken.get_mut(candidate.edge) {
            *flag = true;
        }
        let (target, _new) = self.states.insert_full(candidate.target)?;
        let step = self
            .machine
            .step(alloc, self.search.held(), number_of(target))?;
        Ok(Some(step))
    }
}
