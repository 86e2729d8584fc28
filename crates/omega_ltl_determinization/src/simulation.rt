//! Direct simulation: a state simulates another one if at each letter it can answer each step of the other by one that
//! is in the same sets at least and leads to a state that simulates the other's target. It then accepts all that the
//! other accepts.
use crate::limits::{MOST_SIMULATED, MOST_SIMULATION_STEPS};
use crate::steps::{Step, Steps};
use omega_graph_search::{NONE, NumberTable};
use std::alloc::{AllocError, Global};

/// Which states of an automaton simulate which.
#[derive(Drop)]
pub(crate) struct Simulation<'a> {
    steps: &'a Steps,
    // By pair of states, 1 or 0: whether the second simulates the first, as far as is known.
    pairs: NumberTable,
    // How many more steps may be compared.
    fuel: u64,
}

/// Returns an automaton's steps, reduced by direct simulation: for states that simulate each other one stands, and a
/// step stays only if no other step of its state at its letters does at least as well. `starts` become such states too.
/// Steps of large automata are not reduced.
pub(crate) fn reduced_by_simulation(
    alloc: Global,
    steps: Steps,
    starts: &mut Vec<u32>,
) -> Result<Steps, AllocError> {
    if steps.states > MOST_SIMULATED {
        return Ok(steps);
    }
    match simulated(alloc, &steps, starts)? {
        Some(reduced) => Ok(reduced),
        None => Ok(steps),
    }
}

/// Returns the reduced steps, or none if the comparison would take too long.
fn simulated(
    alloc: Global,
    steps: &Steps,
    starts: &mut Vec<u32>,
) -> Result<Option<Steps>, AllocError> {
    let count = (steps.states as usize).saturating_mul(steps.states as usize);
    let mut simulation = Simulation {
        steps,
        pairs: NumberTable::filled(alloc, count, 1)?,
        fuel: MOST_SIMULATION_STEPS,
    };
    // Each round but the last parts a pair.
    for _ in 0..=count {
        if !simulation.refine() {
            break;
        }
    }
    if simulation.fuel == 0 {
        return Ok(None);
    }
    let reduced = simulation.reduced(alloc)?;
    for index in 0..starts.len() {
        starts[index] = simulation.standing(starts[index]);
    }
    Ok(Some(reduced))
}

impl<'a> Simulation<'a> {
    /// Whether a state simulates another one, as far as is known.
    #[inline(always)]
    fn is_simulated(&self, state: u32, by: u32) -> bool {
        let pair = state.wrapping_mul(self.steps.states).wrapping_add(by);
        self.pairs.at(pair) == 1
    }

    /// Parts the pairs that are seen not to simulate each other. Returns whether there were any, unless fuel is used
    /// up.
    fn refine(&mut self) -> bool {
        let mut has_parted = false;
        for state in 0..self.steps.states {
            for by in 0..self.steps.states {
                if self.is_simulated(state, by) && !self.answers_all(state, by) {
                    let pair = state.wrapping_mul(self.steps.states).wrapping_add(by);
                    self.pairs.put(pair, 0);
                    has_parted = true;
                }
            }
            if self.fuel == 0 {
                return false;
            }
        }
        has_parted
    }

    /// Whether the state `by` can answer each step of `state`.
    fn answers_all(&mut self, state: u32, by: u32) -> bool {
        for class in 0..self.steps.classes {
            let own = self.steps.at(state, class);
            let others = self.steps.at(by, class);
            let compared = (own.len() as u64).saturating_mul(others.len() as u64);
            self.fuel = self.fuel.saturating_sub(compared.saturating_add(1));
            for step in own {
                if !others.iter().any(|other| self.does_as_well(*other, *step)) {
                    return false;
                }
            }
        }
        true
    }

    /// Whether a step does at least as well as another one.
    fn does_as_well(&self, step: Step, other: Step) -> bool {
        other.marks & !step.marks == 0 && self.is_simulated(other.target, step.target)
    }

    /// Returns the state that stands for a state: the first of those that simulate it and that it simulates.
    fn standing(&self, state: u32) -> u32 {
        for other in 0..self.steps.states {
            if self.is_simulated(state, other) && self.is_simulated(other, state) {
                return other;
            }
        }
        state
    }

    /// Returns the steps that stay, between the states that stand for others.
    fn reduced(&self, alloc: Global) -> Result<Steps, AllocError> {
        let mut standing = NumberTable::filled(alloc, self.steps.states as usize, NONE)?;
        for state in 0..self.steps.states {
            standing.put(state, self.standing(state));
        }
        let mut reduced = Steps::empty(alloc, self.steps.states, self.steps.classes);
        let mut kept = Vec::new(alloc);
        for state in 0..self.steps.states {
            for class in 0..self.steps.classes {
                self.find_best(self.steps.at(state, class), &standing, &mut kept)?;
                reduced.push(kept.as_slice())?;
            }
        }
        Ok(reduced)
    }

    /// Writes those steps to which no other does at least as well, one of those that do as well as each other.
    fn find_best(
        &self,
        steps: &[Step],
        standing: &NumberTable,
        kept: &mut Vec<Step>,
    ) -> Result<(), AllocError> {
        kept.clear();
        for step in steps {
            let step = Step {
                target: standing.at(step.target),
                marks: step.marks,
            };
            if kept.iter().any(|other| self.does_as_well(*other, step)) {
                continue;
            }
            kept.retain(|other| !self.does_as_well(step, *other));
            kept.push(step)?;
        }
        Ok(())
    }
}
