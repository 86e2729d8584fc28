//! States that choose alike, merged (Moore 1956).

use crate::choice::{Choice, ChoiceTable};
use crate::limits::MOST_MERGING_STEPS;
use crate::machine::Machine;
use indexmap::IndexSet;
use omega_graph_search::{NONE, NumberTable, number_of};
use omega_text::Refusal;
use std::alloc::{AllocError, Global};

/// Returns the machine whose states are the classes of states that choose alike: the same outputs at each letter, and
/// next states of one class. Classes are numbered by their first states. Past `MOST_MERGING_STEPS` choices that were
/// gone through, returns the machine as it is.
pub(crate) fn merged(alloc: Global, machine: Machine) -> Result<Machine, Refusal> {
    let states = machine.roots.len();
    let mut classes = NumberTable::filled(alloc, states, 0)?;
    let mut count = 1;
    let mut steps = 0usize;
    for _ in 0..states {
        steps = steps.saturating_add(machine.choices.len());
        if steps > MOST_MERGING_STEPS {
            break;
        }
        let finer = Classes::of(alloc, &machine, &classes)?;
        if finer.roots.len() <= count {
            return finer.machine(alloc, machine);
        }
        count = finer.roots.len();
        classes = finer.by_state;
    }
    Ok(machine)
}

/// Classes of states, by the classes that their choices lead to.
#[derive(Drop)]
struct Classes {
    /// The choices, with classes in the place of states.
    choices: ChoiceTable,
    /// By class the number of its choice.
    roots: IndexSet<u32>,
    /// By state the number of its class.
    by_state: NumberTable,
}

impl Classes {
    /// Returns the classes of states that choose alike if states of one class are taken for one.
    fn of(alloc: Global, machine: &Machine, classes: &NumberTable) -> Result<Classes, Refusal> {
        let mut choices = ChoiceTable::new(alloc);
        let mut images = NumberTable::filled(alloc, machine.choices.len(), NONE)?;
        for number in 0..machine.choices.len() {
            if let Some(choice) = machine.choices.at(number) {
                let image = choices.number(image_of(choice, classes, &images))?;
                images.put(number_of(number), image);
            }
        }
        let mut roots = IndexSet::new(alloc);
        let mut by_state = Vec::with_capacity(alloc, machine.roots.len())?;
        for root in &machine.roots {
            let (class, _new) = roots.insert_full(images.at(*root))?;
            by_state.push(number_of(class))?;
        }
        Ok(Classes {
            choices,
            roots,
            by_state: NumberTable::of(by_state),
        })
    }

    /// Returns the machine of the classes of states of `machine`.
    fn machine(self, alloc: Global, machine: Machine) -> Result<Machine, Refusal> {
        let Classes {
            choices,
            roots,
            by_state: _,
        } = self;
        Ok(Machine {
            choices,
            roots: roots_in_order(alloc, &roots)?,
            sets: machine.sets,
        })
    }
}

/// Returns the numbers of choices, by class.
fn roots_in_order(alloc: Global, roots: &IndexSet<u32>) -> Result<Vec<u32>, AllocError> {
    let mut numbers = Vec::with_capacity(alloc, roots.len())?;
    for root in roots.iter() {
        numbers.push(*root)?;
    }
    Ok(numbers)
}

/// Returns a choice with classes in the place of states. Choices that it leads to have these images.
fn image_of(choice: Choice, classes: &NumberTable, images: &NumberTable) -> Choice {
    match choice {
        Choice::Step { target, outputs } => Choice::Step {
            target: classes.at(target),
            outputs,
        },
        Choice::Branch { input, low, high } => Choice::Branch {
            input,
            low: images.at(low),
            high: images.at(high),
        },
    }
}
