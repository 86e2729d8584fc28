//! What of the steps and sets of an automaton matters. A step that leads to no accepted word is needless. Marks matter
//! on steps within an accepting component alone: one whose steps are in all sets together. There a set is needless if
//! each step is in it, or each step that is in some other set. Components need not have the same sets.
use crate::components::{Components, components_of};
use crate::steps::{Step, Steps};
use omega_graph_search::NumberTable;
use std::alloc::{AllocError, Global};

/// A component from which no word is accepted.
const USELESS: u32 = 0;

/// A component that leads to an accepting one.
const USEFUL: u32 = 1;

/// A component whose steps are in all sets together.
const ACCEPTING: u32 = 2;

/// How many sets a word has a bit for.
const SETS: u32 = 64;

/// The steps of an automaton that matter, and how many sets they are in.
#[derive(Drop)]
pub(crate) struct EssentialSteps {
    pub steps: Steps,
    pub sets: u32,
}

/// Returns the steps of an automaton with `sets` sets that matter, in as few sets as are found. Linear in the steps.
pub(crate) fn essential_steps(
    alloc: Global,
    steps: &Steps,
    sets: u32,
) -> Result<EssentialSteps, AllocError> {
    let (ends, targets) = steps.graph(alloc)?;
    let components = components_of(alloc, ends.as_slice(), targets.as_slice())?;
    let count = components.count as usize;
    let mut essence = Essence {
        steps,
        components: &components,
        all: first_bits(sets),
        seen: vec![in alloc; 0; count]?,
        loops: NumberTable::filled(alloc, count, 0)?,
        kinds: NumberTable::filled(alloc, count, USELESS)?,
        common: vec![in alloc; u64::MAX; count]?,
        implied: vec![in alloc; u64::MAX; count.saturating_mul(SETS as usize)]?,
        kept: vec![in alloc; 0; count]?,
        sets: 0,
    };
    essence.see_marks();
    essence.find_kinds();
    essence.find_implied();
    essence.keep_sets(sets);
    Ok(EssentialSteps {
        steps: essence.essential(alloc)?,
        sets: essence.sets,
    })
}

/// Returns the word whose first bits are set.
fn first_bits(count: u32) -> u64 {
    if count >= SETS {
        return u64::MAX;
    }
    (1 << count) - 1
}

/// What of the steps of an automaton matters.
#[derive(Drop)]
struct Essence<'a> {
    steps: &'a Steps,
    components: &'a Components,
    // All sets, a bit for each.
    all: u64,
    // By component the sets in which steps within it are, whether there are any, 1 or 0, and its kind.
    seen: Vec<u64>,
    loops: NumberTable,
    kinds: NumberTable,
    // By accepting component the sets in which each step within it is, then by set those in which each such step in it
    // is, and the sets that are not needless.
    common: Vec<u64>,
    implied: Vec<u64>,
    kept: Vec<u64>,
    // The most of these of a component.
    sets: u32,
}

impl<'a> Essence<'a> {
    /// Returns the component of a state.
    fn component(&self, state: u32) -> u32 {
        self.components.of.at(state)
    }

    /// Whether a step of a state is within an accepting component.
    fn is_live(&self, state: u32, step: Step) -> bool {
        let own = self.component(state);
        own == self.component(step.target) && self.kinds.at(own) == ACCEPTING
    }

    /// Notes the marks within each component.
    fn see_marks(&mut self) {
        let steps = self.steps;
        for state in 0..steps.states {
            let own = self.component(state);
            for step in steps.of_state(state) {
                if self.component(step.target) == own {
                    self.loops.put(own, 1);
                    unite(&mut self.seen, own, step.marks);
                }
            }
        }
    }

    /// Finds the kinds of the components. A component comes after those that it leads to.
    fn find_kinds(&mut self) {
        let components = self.components;
        for state in &components.order {
            let own = self.component(*state);
            let seen = self.seen.get(own as usize).copied().unwrap_or(0);
            if self.loops.at(own) == 1 && self.all & !seen == 0 {
                self.kinds.put(own, ACCEPTING);
            } else if self.leads_on(*state) {
                self.kinds.put(own, USEFUL);
            }
        }
    }

    /// Whether a step of a state leads to a component that is known not to be useless.
    fn leads_on(&self, state: u32) -> bool {
        self.steps.of_state(state).iter().any(|step| self.kinds.at(self.component(step.target))
            != USELESS)
    }

    /// Finds which sets others imply in each accepting component.
    fn find_implied(&mut self) {
        let steps = self.steps;
        for state in 0..steps.states {
            let own = self.component(state);
            for step in steps.of_state(state) {
                if self.is_live(state, *step) {
                    meet(&mut self.common, own as usize, step.marks);
                    self.meet_implied(own, step.marks);
                }
            }
        }
    }

    /// Notes that a step within a component has these marks.
    fn meet_implied(&mut self, component: u32, marks: u64) {
        let first = (component as usize).saturating_mul(SETS as usize);
        for set in 0..SETS {
            if marks >> set & 1 == 1 {
                meet(&mut self.implied, first.saturating_add(set as usize), marks);
            }
        }
    }

    /// Finds the sets that are kept in each accepting component, of `sets`, and the most of them. Where all sets are
    /// needless everywhere, one says which components accept.
    fn keep_sets(&mut self, sets: u32) {
        let mut most = sets.min(1);
        for component in 0..self.components.count {
            if self.kinds.at(component) == ACCEPTING {
                let kept = self.kept_sets(component);
                unite(&mut self.kept, component, kept);
                most = kept.count_ones().max(most);
            }
        }
        self.sets = most;
    }

    /// Returns the sets that are not needless in a component, a bit for each.
    fn kept_sets(&self, component: u32) -> u64 {
        let mut kept = self.all & !self.common.get(component as usize).copied().unwrap_or(0);
        for set in 0..SETS {
            let own = 1u64 << set;
            let others = kept & !own;
            if kept & own != 0 && self.is_implied(component, own, others) {
                kept = others;
            }
        }
        kept
    }

    /// Whether one of some other sets implies a set in a component. They are given by their bits.
    fn is_implied(&self, component: u32, own: u64, others: u64) -> bool {
        let first = (component as usize).saturating_mul(SETS as usize);
        for other in 0..SETS {
            let place = first.saturating_add(other as usize);
            let implied = self.implied.get(place).copied().unwrap_or(0);
            if others >> other & 1 == 1 && implied & own != 0 {
                return true;
            }
        }
        false
    }

    /// Returns the steps that lead to accepted words, with marks for the sets that are kept.
    fn essential(&self, alloc: Global) -> Result<Steps, AllocError> {
        let mut essential = Steps::empty(alloc, self.steps.states, self.steps.classes);
        let mut row = Vec::new(alloc);
        for state in 0..self.steps.states {
            for class in 0..self.steps.classes {
                row.clear();
                for step in self.steps.at(state, class) {
                    self.add_essential(state, *step, &mut row)?;
                }
                essential.push(row.as_slice())?;
            }
        }
        Ok(essential)
    }

    /// Adds a step of a state, if it leads to accepted words.
    fn add_essential(&self, state: u32, step: Step, row: &mut Vec<Step>) -> Result<(), AllocError> {
        if self.kinds.at(self.component(step.target)) == USELESS {
            return Ok(());
        }
        let own = self.component(state) as usize;
        let marks = if self.is_live(state, step) {
            packed(step.marks, self.kept.get(own).copied().unwrap_or(0))
        } else {
            0
        };
        row.push(Step {
            target: step.target,
            marks,
        })?;
        Ok(())
    }
}

/// Adds bits to the word at an index, if it is there.
fn unite(words: &mut Vec<u64>, index: u32, bits: u64) {
    if (index as usize) < words.len() {
        words[index as usize] |= bits;
    }
}

/// Leaves only these bits in the word at an index, if it is there.
fn meet(words: &mut Vec<u64>, index: usize, bits: u64) {
    if index < words.len() {
        words[index] &= bits;
    }
}

/// Returns the bits of a word at the places of the bits of `kept`, side by side, and all bits after these.
fn packed(word: u64, kept: u64) -> u64 {
    let mut packed = 0u64;
    let mut count = 0u32;
    for place in 0..SETS {
        if kept >> place & 1 == 1 {
            packed |= (word >> place & 1).wrapping_shl(count);
            count = count.wrapping_add(1);
        }
    }
    packed | !first_bits(count)
}
