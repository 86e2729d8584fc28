use crate::choice::{Choice, ChoiceTable};
use indexmap::IndexSet;
use omega_graph_search::number_of;
use omega_text::Refusal;
use std::alloc::{AllocError, Global};

/// A machine that answers letters of the inputs: in each state a choice of outputs and of the next state. It begins in
/// the state 0.
#[derive(Drop)]
pub(crate) struct Machine {
    /// The choices of all states, and those that they lead to.
    pub(crate) choices: ChoiceTable,
    /// By state the number of its choice.
    pub(crate) roots: Vec<u32>,
    /// The sets of outputs that are set at once, each in rising order.
    pub(crate) sets: IndexSet<Vec<u32>>,
}

impl Machine {
    /// Returns a machine without states.
    pub(crate) fn new(alloc: Global) -> Machine {
        Machine {
            choices: ChoiceTable::new(alloc),
            roots: Vec::new(alloc),
            sets: IndexSet::new(alloc),
        }
    }

    /// Returns the number of the choice to set these outputs, which rise, and to go to a state.
    pub(crate) fn step(
        &mut self,
        alloc: Global,
        outputs: &[u32],
        target: u32,
    ) -> Result<u32, Refusal> {
        let outputs = self.set_number(alloc, outputs)?;
        self.choices.number(Choice::Step { target, outputs })
    }

    /// Returns the number of a set of outputs, which is added if it is not there.
    fn set_number(&mut self, alloc: Global, outputs: &[u32]) -> Result<u32, AllocError> {
        if let Some(number) = self.sets.get_index_of(outputs) {
            return Ok(number_of(number));
        }
        let key = Vec::from_slice(alloc, outputs)?;
        let (number, _new) = self.sets.insert_full(key)?;
        Ok(number_of(number))
    }

    /// Whether an output is in the set of a number.
    pub(crate) fn is_set(&self, outputs: u32, output: u32) -> bool {
        match self.sets.get_index(outputs as usize) {
            Some(set) => set.as_slice().binary_search(&output).is_ok(),
            None => false,
        }
    }
}
