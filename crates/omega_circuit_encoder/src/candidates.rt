//! The edges of a state that may answer, while its inputs get values one after the other.

use crate::arena::{LabelArena, RestrictedLabel, Span};
use crate::limits::MOST_INPUTS;
use crate::parting::Parting;
use omega_hoa_automaton::State;
use omega_hoa_edges::edge_label;
use omega_hoa_label::LabelNode;
use omega_text::{Refusal, TaskFault};
use std::alloc::Global;

/// An edge, with what is left of its label.
#[derive(Clone, Copy)]
pub(crate) struct Candidate {
    /// The index of the edge in its state.
    pub(crate) edge: usize,
    /// The state that it leads to.
    pub(crate) target: u32,
    pub(crate) label: RestrictedLabel,
}

/// How much of the candidates was there before an input got a value.
#[derive(Clone, Copy)]
pub(crate) struct Mark {
    /// The first candidate after the value was given.
    pub(crate) first: usize,
    nodes: usize,
}

/// The edges that may answer: those of a state, and after them those that are left, input by input.
#[derive(Drop)]
pub(crate) struct Candidates {
    pub(crate) arena: LabelArena,
    all: Vec<Candidate>,
    // The inputs that the labels of the state mention, in rising order.
    inputs: Vec<u32>,
}

/// A number that no proposition has.
const NO_PROPOSITION: u32 = u32::MAX;

impl Candidates {
    /// Returns no candidates.
    pub(crate) fn new(alloc: Global) -> Candidates {
        Candidates {
            arena: LabelArena::new(alloc),
            all: Vec::new(alloc),
            inputs: Vec::new(alloc),
        }
    }

    /// Takes the edges of a state over `count` propositions that lead to one state each. Fails with
    /// [`TaskFault::TooManyPropositions`] if its labels mention over `MOST_INPUTS` inputs.
    pub(crate) fn take_state(
        &mut self,
        alloc: Global,
        parting: &Parting,
        count: usize,
        state: &State,
    ) -> Result<(), Refusal> {
        self.arena.truncate(0);
        self.all.clear();
        self.inputs.clear();
        for at in 0..state.edges.len() {
            let edge = state.edges.edge(at);
            let label = edge_label(alloc, count, state, &edge, at)?;
            let whole = self.arena.append(label.get())?;
            self.note_inputs(parting, whole)?;
            if let [target] = edge.targets() {
                let label = self.arena.restrict(whole, NO_PROPOSITION, false)?;
                self.push(Candidate {
                    edge: at,
                    target: *target,
                    label,
                })?;
            }
        }
        self.inputs.sort()?;
        Ok(())
    }

    /// Notes the inputs that a label mentions. Fails with [`TaskFault::TooManyPropositions`] past `MOST_INPUTS`.
    fn note_inputs(&mut self, parting: &Parting, label: Span) -> Result<(), Refusal> {
        for node in self.arena.nodes(label) {
            if let LabelNode::Proposition(number) = node {
                if parting.is_input(*number) && !self.inputs.as_slice().contains(number) {
                    if self.inputs.len() >= MOST_INPUTS {
                        return Err(Refusal::Task(TaskFault::TooManyPropositions));
                    }
                    self.inputs.push(*number)?;
                }
            }
        }
        Ok(())
    }

    /// Returns the number of inputs that the labels mention.
    pub(crate) fn input_count(&self) -> usize {
        self.inputs.len()
    }

    /// Returns an input that the labels mention, by its place.
    pub(crate) fn input(&self, place: usize) -> Option<u32> {
        self.inputs.as_slice().get(place).copied()
    }

    /// Returns the candidates from `first` on.
    pub(crate) fn from(&self, first: usize) -> &[Candidate] {
        match self.all.as_slice().get(first..) {
            Some(candidates) => candidates,
            None => &[],
        }
    }

    /// Returns a candidate by its place.
    pub(crate) fn at(&self, place: usize) -> Option<Candidate> {
        self.all.as_slice().get(place).copied()
    }

    /// Returns the number of candidates.
    pub(crate) fn len(&self) -> usize {
        self.all.len()
    }

    /// Whether what is left of a label mentions an input.
    pub(crate) fn has_input(&self, parting: &Parting, label: RestrictedLabel) -> bool {
        let RestrictedLabel::Nodes(span) = label else {
            return false;
        };
        for node in self.arena.nodes(span) {
            if let LabelNode::Proposition(number) = node {
                if parting.is_input(*number) {
                    return true;
                }
            }
        }
        false
    }

    /// Whether what is left of a label of a candidate from `first` on mentions a proposition.
    pub(crate) fn mention(&self, first: usize, number: u32) -> bool {
        for candidate in self.from(first) {
            if let RestrictedLabel::Nodes(span) = candidate.label {
                let nodes = self.arena.nodes(span);
                if nodes.contains(&LabelNode::Proposition(number)) {
                    return true;
                }
            }
        }
        false
    }

    /// Appends the candidates from `first` on again, with a value in place of an input, but for those that can then not
    /// answer.
    pub(crate) fn restrict(
        &mut self,
        first: usize,
        input: u32,
        value: bool,
    ) -> Result<Mark, Refusal> {
        let mark = Mark {
            first: self.all.len(),
            nodes: self.arena.len(),
        };
        for place in first..mark.first {
            if let Some(candidate) = self.at(place) {
                let label = match candidate.label {
                    RestrictedLabel::Nodes(span) => self.arena.restrict(span, input, value)?,
                    constant => constant,
                };
                self.push(Candidate { label, ..candidate })?;
            }
        }
        Ok(mark)
    }

    /// Appends a candidate, unless its label is false.
    fn push(&mut self, candidate: Candidate) -> Result<(), Refusal> {
        match candidate.label {
            RestrictedLabel::Constant(false) => {}
            _ => self.all.push(candidate)?,
        }
        Ok(())
    }

    /// Forgets the candidates that were appended after a mark.
    pub(crate) fn forget(&mut self, mark: Mark) {
        self.all.truncate(mark.first);
        self.arena.truncate(mark.nodes);
    }
}
