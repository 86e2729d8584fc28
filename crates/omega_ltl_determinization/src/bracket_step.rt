//! States of a deterministic automaton as nested brackets, and the steps between them.
//!
//! A node is a state of the nondeterministic automaton with a level: how many of the sets its run has met since it last
//! met all. A deterministic state puts nodes into nested brackets, which are numbered by age, and each node stands
//! directly in one of them. The outermost bracket has the number 0. Before a step of a node that meets all sets, a new
//! bracket is opened within its bracket, and the node goes there. A node that several brackets claim stands in the one
//! that comes first in the order of the brackets' ages. A bracket that has no nodes is removed. One whose nodes all
//! stand in brackets within it *flashes*: all runs in it have met all sets since it last flashed, and what is within it
//! is removed. A word is accepted if some bracket flashes again and again and is removed only finitely often.
use crate::components::Components;
use crate::number_list::NumberList;
use crate::steps::{Step, Steps};
use omega_graph_search::{NONE, NumberTable};
use std::alloc::{AllocError, Global};

/// A bracket holds no node.
const NOTHING: u32 = 0;

/// All nodes of a bracket stand in brackets within it.
const WITHIN: u32 = 1;

/// Some node stands in a bracket directly.
const DIRECTLY: u32 = 2;

/// The colour of a step in which no bracket flashes and none is removed: it is odd and greater than all others.
pub(crate) const NEUTRAL: u32 = u32::MAX;

/// The nodes of a nondeterministic automaton and their steps.
#[derive(Drop)]
pub(crate) struct Nodes<'a> {
    pub steps: &'a Steps,
    pub components: &'a Components,
    pub sets: u32,
}

/// A node that is reached.
#[derive(Clone, Copy)]
struct Reached {
    node: u32,
    /// Whether the last step met all sets.
    accepting: bool,
}

impl<'a> Nodes<'a> {
    /// Returns how many levels a state has, at least 1.
    fn levels(&self) -> u32 {
        self.sets.max(1)
    }

    /// Returns how many nodes there are.
    pub(crate) fn count(&self) -> usize {
        (self.steps.states as usize).saturating_mul(self.levels() as usize)
    }

    /// Returns the state of a node.
    fn state_of(&self, node: u32) -> u32 {
        node.checked_div(self.levels()).unwrap_or(0)
    }

    /// Returns the level of a node.
    fn level_of(&self, node: u32) -> u32 {
        node.checked_rem(self.levels()).unwrap_or(0)
    }

    /// Returns the node of a state with the level 0.
    pub(crate) fn first_of(&self, state: u32) -> u32 {
        state.wrapping_mul(self.levels())
    }

    /// Returns the node that a step of a node reaches. Only runs that stay in a component count: others start anew.
    fn reached(&self, node: u32, step: Step) -> Reached {
        let state = self.state_of(node);
        let old_level = self.level_of(node);
        let node = self.first_of(step.target);
        if self.components.of.at(state) != self.components.of.at(step.target) {
            return Reached {
                node,
                accepting: false,
            };
        }
        let level = level_after(old_level, step.marks, self.sets);
        if level < self.sets {
            return Reached {
                node: node.wrapping_add(level),
                accepting: false,
            };
        }
        let again = level_after(0, step.marks, self.sets);
        let level = if again < self.sets { again } else { 0 };
        Reached {
            node: node.wrapping_add(level),
            accepting: true,
        }
    }
}

/// Returns the least level from `level` on whose set is not among `marks`, at most `sets`.
fn level_after(level: u32, marks: u64, sets: u32) -> u32 {
    if level >= 64 {
        return sets;
    }
    let more = (!(marks >> level)).trailing_zeros();
    level.saturating_add(more).min(sets)
}

/// A step of a deterministic state: the state that is left, and that which is reached.
#[derive(Drop)]
pub(crate) struct BracketStep {
    // Of the state that is left: by bracket the one around it, and the nodes with their brackets.
    parents: NumberList,
    nodes: NumberList,
    places: NumberList,
    // Of the state that is reached: by bracket the one around it, and the bracket opened within it in this step.
    around: NumberList,
    opened: NumberList,
    // The nodes that are reached, and by node its bracket.
    reached: NumberList,
    bracket_of: NumberTable,
    // By bracket: which nodes it holds, the flashing bracket that it is in, whether it stays, and its new number.
    holds: NumberList,
    flashing: NumberList,
    renamed: NumberList,
    // The number of brackets, the bracket around each, and then each node with its bracket.
    state: NumberList,
}

impl BracketStep {
    /// Returns a step among `count` nodes, from a state without nodes.
    pub(crate) fn new(alloc: Global, count: usize) -> Result<BracketStep, AllocError> {
        Ok(BracketStep {
            parents: NumberList::new(alloc),
            nodes: NumberList::new(alloc),
            places: NumberList::new(alloc),
            around: NumberList::new(alloc),
            opened: NumberList::new(alloc),
            reached: NumberList::new(alloc),
            bracket_of: NumberTable::filled(alloc, count, NONE)?,
            holds: NumberList::new(alloc),
            flashing: NumberList::new(alloc),
            renamed: NumberList::new(alloc),
            state: NumberList::new(alloc),
        })
    }

    /// Reaches the state in which these states stand in one bracket.
    pub(crate) fn begin(&mut self, nodes: &Nodes<'_>, states: &[u32]) -> Result<(), AllocError> {
        self.around.clear();
        self.around.push(NONE)?;
        for state in states {
            if *state < nodes.steps.states {
                self.place(nodes.first_of(*state), 0)?;
            }
        }
        self.settle(1)?;
        Ok(())
    }

    /// Returns the state that was reached last, as numbers: that of its brackets, the bracket around each, and then
    /// each node with its bracket, in the order of the nodes.
    pub(crate) fn state(&self) -> &[u32] {
        self.state.as_slice()
    }

    /// Whether the state that was reached last has no node.
    pub(crate) fn is_empty(&self) -> bool {
        self.state.at(0) == 0
    }

    /// Leaves `state` in the steps that follow.
    pub(crate) fn leave(&mut self, state: &[u32]) -> Result<(), AllocError> {
        self.nodes.clear();
        self.places.clear();
        let (brackets, nodes) = match state.split_first() {
            Some((count, rest)) => front_and_rest(rest, *count as usize),
            None => (state, state),
        };
        self.parents.copy(brackets)?;
        for index in 0..nodes.len() / 2 {
            self.nodes.push(nodes[2 * index])?;
            self.places.push(nodes[2 * index + 1])?;
        }
        Ok(())
    }

    /// Takes the step at a class of letters, and returns its colour.
    pub(crate) fn take(&mut self, nodes: &Nodes<'_>, class: u32) -> Result<u32, AllocError> {
        let old = self.parents.len();
        self.around.copy(self.parents.as_slice())?;
        self.opened.fill(old, NONE)?;
        for index in 0..self.nodes.len() {
            let node = self.nodes.at(index);
            let bracket = self.places.at(index);
            self.follow(nodes, class, node, bracket)?;
        }
        self.settle(old)
    }

    /// Follows the steps of a node that stands in a bracket.
    fn follow(
        &mut self,
        nodes: &Nodes<'_>,
        class: u32,
        node: u32,
        bracket: u32,
    ) -> Result<(), AllocError> {
        for step in nodes.steps.at(nodes.state_of(node), class) {
            let reached = nodes.reached(node, *step);
            if reached.accepting {
                let inner = self.opened_in(bracket)?;
                self.place(reached.node, inner)?;
            } else {
                self.place(reached.node, bracket)?;
            }
        }
        Ok(())
    }

    /// Returns the bracket that this step opened within `bracket`, and opens one if there is none.
    fn opened_in(&mut self, bracket: u32) -> Result<u32, AllocError> {
        let opened = self.opened.at(bracket);
        if opened != NONE {
            return Ok(opened);
        }
        let inner = self.around.len();
        self.around.push(bracket)?;
        self.opened.put(bracket, inner);
        Ok(inner)
    }

    /// Puts a node into a bracket, unless it stands in a better one.
    fn place(&mut self, node: u32, bracket: u32) -> Result<(), AllocError> {
        let before = self.bracket_of.at(node);
        if before == NONE {
            self.reached.push(node)?;
            self.bracket_of.put(node, bracket);
        } else if self.is_better(bracket, before) {
            self.bracket_of.put(node, bracket);
        }
        Ok(())
    }

    /// Whether a bracket comes before another one: it stands within it, or where they part its side is older.
    fn is_better(&self, bracket: u32, other: u32) -> bool {
        let mut one = bracket;
        let mut two = other;
        // The brackets through which each came, or none, which is greater than all.
        let mut side = NONE;
        let mut other_side = NONE;
        // A bracket has a greater number than the one around it, so the greater of the two is left for good.
        for _ in 0..self.around.len() {
            if one == two {
                break;
            }
            if one > two {
                side = one;
                one = self.around.at(one);
            } else {
                other_side = two;
                two = self.around.at(two);
            }
        }
        side < other_side
    }

    /// Lets brackets flash and removes brackets, of which the first `old` were there before. Then writes the state, and
    /// returns the colour of the step.
    fn settle(&mut self, old: u32) -> Result<u32, AllocError> {
        self.find_holders()?;
        let colour = self.flash(old)?;
        self.rename()?;
        self.write()?;
        Ok(colour)
    }

    /// Finds which nodes each bracket holds.
    fn find_holders(&mut self) -> Result<(), AllocError> {
        self.holds.fill(self.around.len(), NOTHING)?;
        for index in 0..self.reached.len() {
            let bracket = self.bracket_of.at(self.reached.at(index));
            self.holds.put(bracket, DIRECTLY);
        }
        for inner in (0..self.around.len()).rev() {
            let outer = self.around.at(inner);
            if self.holds.at(inner) != NOTHING && self.holds.at(outer) == NOTHING {
                self.holds.put(outer, WITHIN);
            }
        }
        Ok(())
    }

    /// Finds the flashing brackets, and returns the colour of the step: twice the number of the oldest bracket that
    /// flashes or is removed, and 2 if it flashes, or else 1.
    fn flash(&mut self, old: u32) -> Result<u32, AllocError> {
        self.flashing.clear();
        let mut colour = NEUTRAL;
        for bracket in 0..self.around.len() {
            let outer = self.flashing.at(self.around.at(bracket));
            let holds = self.holds.at(bracket);
            let is_flashing = outer == NONE && holds == WITHIN;
            self.flashing
                .push(if is_flashing { bracket } else { outer })?;
            if is_flashing {
                colour = colour.min(bracket.saturating_mul(2).saturating_add(2));
            } else if holds == NOTHING && bracket < old {
                colour = colour.min(bracket.saturating_mul(2).saturating_add(1));
            }
        }
        Ok(colour)
    }

    /// Moves the nodes within flashing brackets into these, and numbers the brackets that stay, in their order.
    fn rename(&mut self) -> Result<(), AllocError> {
        let count = self.around.len();
        self.renamed.fill(count, NONE)?;
        for index in 0..self.reached.len() {
            let node = self.reached.at(index);
            let bracket = self.bracket_of.at(node);
            let flashing = self.flashing.at(bracket);
            let bracket = if flashing == NONE { bracket } else { flashing };
            self.bracket_of.put(node, bracket);
            self.renamed.put(bracket, 0);
        }
        for inner in (0..count).rev() {
            if self.renamed.at(inner) != NONE {
                self.renamed.put(self.around.at(inner), 0);
            }
        }
        let mut next = 0u32;
        for bracket in 0..count {
            if self.renamed.at(bracket) != NONE {
                self.renamed.put(bracket, next);
                next = next.wrapping_add(1);
            }
        }
        self.state.clear();
        self.state.push(next)
    }

    /// Writes the brackets and the nodes, and forgets the nodes.
    fn write(&mut self) -> Result<(), AllocError> {
        for bracket in 0..self.around.len() {
            if self.renamed.at(bracket) != NONE {
                self.state.push(self.renamed.at(self.around.at(bracket)))?;
            }
        }
        self.reached.sort();
        for index in 0..self.reached.len() {
            let node = self.reached.at(index);
            self.state.push(node)?;
            self.state.push(self.renamed.at(self.bracket_of.at(node)))?;
            self.bracket_of.put(node, NONE);
        }
        self.reached.clear();
        Ok(())
    }
}

/// Returns the first `count` numbers and the others, or all and none if there are fewer.
fn front_and_rest(numbers: &[u32], count: usize) -> (&[u32], &[u32]) {
    if count > numbers.len() {
        return (numbers, &[]);
    }
    numbers.split_at(count)
}
