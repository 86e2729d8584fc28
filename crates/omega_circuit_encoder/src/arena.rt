//! Labels whose propositions get values one after the other.

use omega_hoa_label::{Label, LabelNode, ROOM};
use std::alloc::{AllocError, Global};

/// Where the nodes of a label are in an arena.
#[derive(Clone, Copy, Debug)]
pub(crate) struct Span {
    pub(crate) start: usize,
    pub(crate) end: usize,
}

/// A label some of whose propositions were given values. It has no constant, unless it is one.
#[derive(Clone, Copy, Debug)]
pub(crate) enum RestrictedLabel {
    Constant(bool),
    Nodes(Span),
}

/// A part of the label that is being restricted: the place of its first node, and its value if it is a constant, which
/// then has no nodes.
#[derive(Clone, Copy)]
struct Operand {
    start: usize,
    constant: Option<bool>,
}

/// The nodes of labels one after the other, parts before their operators.
#[derive(Drop)]
pub(crate) struct LabelArena {
    nodes: Vec<LabelNode>,
    // The parts of the label that is being restricted and that no operator joined so far.
    operands: Vec<Operand>,
}

impl LabelArena {
    /// Returns an arena without labels.
    pub(crate) fn new(alloc: Global) -> LabelArena {
        LabelArena {
            nodes: Vec::new(alloc),
            operands: Vec::new(alloc),
        }
    }

    /// Returns the number of nodes of all labels.
    pub(crate) fn len(&self) -> usize {
        self.nodes.len()
    }

    /// Forgets all nodes from `len` on.
    pub(crate) fn truncate(&mut self, len: usize) {
        self.nodes.truncate(len);
    }

    /// Appends the nodes of a label. Linear in it.
    pub(crate) fn append(&mut self, label: &Label) -> Result<Span, AllocError> {
        let mut room = ROOM;
        let start = self.nodes.len();
        self.nodes.extend_from_slice(label.nodes(&mut room))?;
        Ok(Span {
            start,
            end: self.nodes.len(),
        })
    }

    /// Returns the nodes of a label.
    pub(crate) fn nodes(&self, span: Span) -> &[LabelNode] {
        match self.nodes.as_slice().get(span.start..span.end) {
            Some(nodes) => nodes,
            None => &[],
        }
    }

    /// Appends a label with a value in place of the proposition `number`, and without constants. Linear in it.
    pub(crate) fn restrict(
        &mut self,
        label: Span,
        number: u32,
        value: bool,
    ) -> Result<RestrictedLabel, AllocError> {
        let start = self.nodes.len();
        self.operands.clear();
        for at in label.start..label.end {
            if let Some(node) = self.nodes.as_slice().get(at).copied() {
                self.take(node, number, value)?;
            }
        }
        match self.pop().constant {
            Some(value) => Ok(RestrictedLabel::Constant(value)),
            None => Ok(RestrictedLabel::Nodes(Span {
                start,
                end: self.nodes.len(),
            })),
        }
    }

    /// Appends one node of a label that is being restricted, or joins the parts before it.
    fn take(&mut self, node: LabelNode, number: u32, value: bool) -> Result<(), AllocError> {
        match node {
            LabelNode::Constant(constant) => self.push_constant(constant),
            LabelNode::Proposition(other) if other == number => self.push_constant(value),
            LabelNode::Proposition(_) => {
                let start = self.nodes.len();
                self.nodes.push(node)?;
                self.push(Operand {
                    start,
                    constant: None,
                })
            }
            LabelNode::Not => self.negate(),
            LabelNode::And => self.join(node, false),
            LabelNode::Or => self.join(node, true),
            LabelNode::Group | LabelNode::Alias(_) => Ok(()),
        }
    }

    /// Negates the last part.
    fn negate(&mut self) -> Result<(), AllocError> {
        let part = self.pop();
        match part.constant {
            Some(value) => self.push_constant(!value),
            None => {
                self.nodes.push(LabelNode::Not)?;
                self.push(part)
            }
        }
    }

    /// Joins the last two parts by an operator. They are `absorbing` if one of them is.
    fn join(&mut self, operator: LabelNode, absorbing: bool) -> Result<(), AllocError> {
        let right = self.pop();
        let left = self.pop();
        if left.constant == Some(absorbing) || right.constant == Some(absorbing) {
            self.nodes.truncate(left.start);
            return self.push_constant(absorbing);
        }
        match (left.constant, right.constant) {
            (None, None) => {
                self.nodes.push(operator)?;
                self.push(left)
            }
            (None, Some(_)) => self.push(left),
            (Some(_), _) => self.push(right),
        }
    }

    /// Notes a part that is a constant.
    fn push_constant(&mut self, value: bool) -> Result<(), AllocError> {
        let start = self.nodes.len();
        self.push(Operand {
            start,
            constant: Some(value),
        })
    }

    /// Notes a part.
    fn push(&mut self, part: Operand) -> Result<(), AllocError> {
        self.operands.push(part)?;
        Ok(())
    }

    /// Takes the last part; false if there is none, which no label allows.
    fn pop(&mut self) -> Operand {
        match self.operands.pop() {
            Some(part) => part,
            None => Operand {
                start: self.nodes.len(),
                constant: Some(false),
            },
        }
    }
}
