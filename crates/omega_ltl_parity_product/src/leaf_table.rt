ghost use Rattle.std.specs.Prelude.{◌≤◌, IfErr};
ghost use Rattle.omega_ltl_determinization.specs.Limits.{most_names};
ghost use Rattle.omega_ltl_determinization.specs.Refusing.{IsLarge};

use crate::condition::LeafCondition;
use crate::leaf::Leaf;
use crate::wide_letters::wide_letters;
use omega_graph_search::{NONE, NumberTable};
use omega_ltl_determinization::{Components, LetterSets, MOST_NAMES, all_letters, components_of};
use omega_text::Refusal;
use std::alloc::{AllocError, Global};
use std::ops::Range;

/// In place of the state of a leaf: the leaf is true, whatever comes.
pub(crate) const TRUE: u32 = NONE;

/// In place of the state of a leaf: the leaf is false, whatever comes, or the whole does not depend on it.
pub(crate) const FALSE: u32 = NONE - 1;

/// A leaf, and what a product asks of it.
#[derive(Drop)]
pub(crate) struct LeafTable<'a> {
    leaf: &'a Leaf,
    /// By edge its letters, over the names of the whole.
    pub letters: LetterSets,
    // All letters over the names of the leaf.
    all: Vec<u64>,
    components: Components,
    // By component the least and the greatest colour on an edge within it, or none if it has no edge.
    least: NumberTable,
    greatest: NumberTable,
    // The mark of the colour 0.
    first_mark: u32,
}

impl<'a> LeafTable<'a> {
    /// Returns the table of a leaf, over letters that give truth values to `names` names. The marks of the leaf are
    /// numbered from `first_mark` on. Fails with [`omega_text::TaskFault::TooLarge`] if the letters take too many
    /// words.
    pub(crate) fn of(
        alloc: Global,
        leaf: &'a Leaf,
        names: u32,
        first_mark: u32,
    ) -> Result<LeafTable<'a>, Refusal>
        requires { names ≤ most_names }
        ensures { IfErr result IsLarge }
    {
        let letters = wide_letters(alloc, leaf, names)?;
        let table = LeafTable::with_letters(alloc, leaf, letters, first_mark)?;
        Ok(table)
    }

    /// Returns the table of a leaf with these letters.
    fn with_letters(
        alloc: Global,
        leaf: &'a Leaf,
        letters: LetterSets,
        first_mark: u32,
    ) -> Result<LeafTable<'a>, AllocError> {
        let automaton = &leaf.automaton;
        let mut targets = Vec::new(alloc);
        for edge in automaton.edges.as_slice() {
            targets.push(edge.target)?;
        }
        let components = components_of(alloc, automaton.ends.as_slice(), targets.as_slice())?;
        let count = components.count as usize;
        let mut table = LeafTable {
            leaf,
            letters,
            all: all_letters(alloc, automaton.names.min(MOST_NAMES))?,
            components,
            least: NumberTable::filled(alloc, count, NONE)?,
            greatest: NumberTable::filled(alloc, count, NONE)?,
            first_mark,
        };
        for state in 0..automaton.state_count() {
            table.find_colours(state);
        }
        Ok(table)
    }

    /// Notes the colours of the edges of a state that stay in its component.
    fn find_colours(&mut self, state: u32) {
        let leaf = self.leaf;
        let own = self.component(state);
        for edge in leaf.automaton.places_of(state) {
            if self.component(leaf.automaton.target(edge)) != own {
                continue;
            }
            let colour = leaf.automaton.colour(edge);
            let least = self.least.at(own);
            self.least.put(own, least.min(colour));
            let greatest = self.greatest.at(own);
            if greatest == NONE || greatest < colour {
                self.greatest.put(own, colour);
            }
        }
    }

    /// Returns how many marks the leaf has: one for each colour but the greatest of a component.
    pub(crate) fn mark_count(&self) -> u32 {
        let mut count = 0;
        for component in 0..self.components.count {
            let greatest = self.greatest.at(component);
            if greatest != NONE {
                count = greatest.max(count);
            }
        }
        count
    }

    /// Returns the component of a state.
    pub(crate) fn component(&self, state: u32) -> u32 {
        self.components.of.at(state)
    }

    /// Returns what stands in the place of the state in which runs begin.
    pub(crate) fn start(&self) -> u32 {
        self.state_or_truth(self.leaf.automaton.start)
    }

    /// Returns the numbers of the edges of a state.
    pub(crate) fn edges_of(&self, state: u32) -> Range<u32> {
        self.leaf.automaton.places_of(state)
    }

    /// Returns what stands in the place of the target of an edge.
    pub(crate) fn target(&self, edge: u32) -> u32 {
        self.state_or_truth(self.leaf.automaton.target(edge))
    }

    /// Returns what stands in the place of a state at letters of none of its edges.
    pub(crate) fn state_outside(&self) -> u32 {
        truth_state(self.leaf.is_negated)
    }

    /// Returns a state, or the truth of the leaf if from the state each word is accepted, or none.
    fn state_or_truth(&self, state: u32) -> u32 {
        let automaton = &self.leaf.automaton;
        let edges = automaton.places_of(state);
        let edge = edges.start;
        if edge >= edges.end {
            return self.state_outside();
        }
        let is_universal = automaton.target(edge) == state
            && automaton.colour(edge) % 2 == 0
            && automaton.letters_of(edge) == self.all.as_slice();
        if is_universal {
            truth_state(!self.leaf.is_negated)
        } else {
            state
        }
    }

    /// Returns the marks of an edge of a state: that of its colour, if it stays in its component and another colour
    /// there is greater.
    pub(crate) fn marks_of(&self, state: u32, edge: u32) -> u64 {
        let automaton = &self.leaf.automaton;
        let own = self.component(state);
        let colour = automaton.colour(edge);
        if self.component(automaton.target(edge)) != own || colour >= self.greatest.at(own) {
            return 0;
        }
        mark(self.first_mark.saturating_add(colour))
    }

    /// Returns when the leaf accepts while it stays in a component.
    pub(crate) fn condition(&self, component: u32) -> LeafCondition {
        let greatest = self.greatest.at(component);
        if greatest == NONE {
            return LeafCondition::Fixed(false);
        }
        let mut mask = 0;
        for colour in self.least.at(component)..greatest {
            mask |= mark(self.first_mark.saturating_add(colour));
        }
        LeafCondition::Least {
            mask,
            first: self.first_mark,
            otherwise: greatest % 2 == 0,
            is_negated: self.leaf.is_negated,
        }
    }
}

/// Returns what stands in the place of the state of a leaf whose truth is known.
fn truth_state(value: bool) -> u32 {
    if value { TRUE } else { FALSE }
}

/// Returns the word with one mark, or none past the last.
fn mark(number: u32) -> u64 {
    if number >= 64 {
        return 0;
    }
    1 << number
}
