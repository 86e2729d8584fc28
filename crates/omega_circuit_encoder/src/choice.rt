use crate::limits::MOST_CHOICES;
use indexmap::IndexSet;
use omega_graph_search::number_of;
use omega_text::{Refusal, TaskFault};
use std::alloc::Global;

/// What a state chooses where some inputs have values.
#[derive(Clone, Copy, Debug, PartialEq, Eq, Hash)]
pub(crate) enum Choice {
    /// To set the outputs of a set, given by its number, and to go to a state.
    Step { target: u32, outputs: u32 },
    /// What the choice `high` says if an input holds, else what the choice `low` says.
    Branch { input: u32, low: u32, high: u32 },
}

/// Choices by their numbers, each once. A choice comes after those that it leads to.
#[derive(Drop)]
pub(crate) struct ChoiceTable {
    all: IndexSet<Choice>,
}

impl ChoiceTable {
    /// Returns a table without choices.
    pub(crate) fn new(alloc: Global) -> ChoiceTable {
        ChoiceTable {
            all: IndexSet::new(alloc),
        }
    }

    /// Returns the number of choices.
    pub(crate) fn len(&self) -> usize {
        self.all.len()
    }

    /// Returns the choice of a number.
    pub(crate) fn at(&self, number: usize) -> Option<Choice> {
        self.all.get_index(number).copied()
    }

    /// Returns the number of a choice, which is added if it is not there. A branch to one choice is that choice. Fails
    /// with [`TaskFault::TooLarge`] past `MOST_CHOICES`.
    pub(crate) fn number(&mut self, choice: Choice) -> Result<u32, Refusal> {
        if let Choice::Branch { low, high, .. } = choice {
            if low == high {
                return Ok(low);
            }
        }
        let (number, is_new) = self.all.insert_full(choice)?;
        if is_new && number >= MOST_CHOICES {
            return Err(Refusal::Task(TaskFault::TooLarge));
        }
        Ok(number_of(number))
    }
}
