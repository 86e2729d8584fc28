//! Values of propositions at which a label is true.

use crate::arena::{LabelArena, RestrictedLabel, Span};
use crate::limits::MOST_TRIES;
use omega_hoa_label::LabelNode;
use omega_text::{Refusal, TaskFault};
use std::alloc::{AllocError, Global};

/// A value of a proposition that is tried in a label.
#[derive(Clone, Copy)]
struct Try {
    label: Span,
    number: u32,
    value: bool,
}

/// Looks for values of propositions at which a label is true.
#[derive(Drop)]
pub(crate) struct WitnessSearch {
    tries: Vec<Try>,
    held: Vec<u32>,
}

impl WitnessSearch {
    /// Returns a search that found nothing so far.
    pub(crate) fn new(alloc: Global) -> WitnessSearch {
        WitnessSearch {
            tries: Vec::new(alloc),
            held: Vec::new(alloc),
        }
    }

    /// Returns the propositions that hold in the values that were found last, in rising order.
    pub(crate) fn held(&self) -> &[u32] {
        self.held.as_slice()
    }

    /// Whether a label can be true. Each proposition in turn is false if the label can then be true. Fails with
    /// [`TaskFault::TooLarge`] past `MOST_TRIES` values.
    pub(crate) fn find(
        &mut self,
        arena: &mut LabelArena,
        label: RestrictedLabel,
    ) -> Result<bool, Refusal> {
        let room = arena.len();
        let mut left = label;
        self.tries.clear();
        for _ in 0..MOST_TRIES {
            match left {
                RestrictedLabel::Constant(true) => {
                    self.note_held()?;
                    arena.truncate(room);
                    return Ok(true);
                }
                RestrictedLabel::Constant(false) => match self.next_try()? {
                    Some(next) => {
                        arena.truncate(next.label.end.max(room));
                        left = arena.restrict(next.label, next.number, true)?;
                    }
                    None => {
                        arena.truncate(room);
                        return Ok(false);
                    }
                },
                RestrictedLabel::Nodes(span) => {
                    left = self.first_try(arena, span)?;
                }
            }
        }
        Err(Refusal::Task(TaskFault::TooLarge))
    }

    /// Tries false for the first proposition of a label, and returns what is left of it.
    fn first_try(
        &mut self,
        arena: &mut LabelArena,
        label: Span,
    ) -> Result<RestrictedLabel, AllocError> {
        let Some(number) = first_proposition(arena.nodes(label)) else {
            return Ok(RestrictedLabel::Constant(false));
        };
        self.tries.push(Try {
            label,
            number,
            value: false,
        })?;
        arena.restrict(label, number, false)
    }

    /// Makes the last value that is false true, and forgets those after it. Returns it, or `None` if all are true.
    fn next_try(&mut self) -> Result<Option<Try>, AllocError> {
        for _ in 0..self.tries.len() {
            match self.tries.pop() {
                Some(last) if !last.value => {
                    let next = Try {
                        value: true,
                        ..last
                    };
                    self.tries.push(next)?;
                    return Ok(Some(next));
                }
                _ => {}
            }
        }
        Ok(None)
    }

    /// Notes the propositions that hold.
    fn note_held(&mut self) -> Result<(), AllocError> {
        self.held.clear();
        for one in &self.tries {
            if one.value {
                self.held.push(one.number)?;
            }
        }
        self.held.sort()?;
        Ok(())
    }
}

/// Returns the first proposition of a label.
fn first_proposition(nodes: &[LabelNode]) -> Option<u32> {
    for node in nodes {
        if let LabelNode::Proposition(number) = node {
            return Some(*number);
        }
    }
    None
}
