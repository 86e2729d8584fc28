//! What a formula says by the temporal parts of it.
use omega_ltl_formula::{BinaryOperator, FormulaNode, UnaryOperator};

/// When a node of a formula is to hold.
#[derive(Clone, Copy, Debug, PartialEq, Eq)]
pub(crate) enum When {
    /// At the first index.
    Now,
    /// At each index.
    Always,
    /// At some index.
    Sometime,
}

/// Whether a node of a formula holds so.
#[derive(Clone, Copy, Debug, PartialEq, Eq)]
pub(crate) struct Question {
    pub when: When,
    /// The number of the node.
    pub node: usize,
}

/// What the answer to a question is by the answers to others, which are of operands of its node.
#[derive(Clone, Copy, Debug, PartialEq, Eq)]
pub(crate) enum Answer {
    /// True or false.
    Constant(bool),
    /// No combination of others: a leaf.
    Leaf,
    Same(Question),
    Not(Question),
    And(Question, Question),
    Or(Question, Question),
    Implies(Question, Question),
    Iff(Question, Question),
    Xor(Question, Question),
}

impl Question {
    /// Returns the question whether a node holds now.
    pub(crate) fn now(node: usize) -> Question {
        Question {
            when: When::Now,
            node,
        }
    }

    /// Returns the question whether a node holds always.
    fn always(node: usize) -> Question {
        Question {
            when: When::Always,
            node,
        }
    }

    /// Returns the question whether a node holds sometime.
    fn sometime(node: usize) -> Question {
        Question {
            when: When::Sometime,
            node,
        }
    }

    /// Returns the answer to the question, whose node is `node`.
    pub(crate) fn answer(self, node: FormulaNode) -> Answer {
        match self.when {
            When::Now => answer_now(node),
            When::Always => answer_always(node),
            When::Sometime => answer_sometime(node),
        }
    }
}

/// Returns whether a node holds now.
fn answer_now(node: FormulaNode) -> Answer {
    match node {
        FormulaNode::Constant(value) => Answer::Constant(value),
        FormulaNode::Name(_) => Answer::Leaf,
        FormulaNode::Unary(operator, part) => match operator {
            UnaryOperator::Not => Answer::Not(Question::now(part)),
            UnaryOperator::Next => Answer::Leaf,
            UnaryOperator::Finally => Answer::Same(Question::sometime(part)),
            UnaryOperator::Globally => Answer::Same(Question::always(part)),
        },
        FormulaNode::Binary(operator, left, right) => {
            let left = Question::now(left);
            let right = Question::now(right);
            match operator {
                BinaryOperator::And => Answer::And(left, right),
                BinaryOperator::Or => Answer::Or(left, right),
                BinaryOperator::Xor => Answer::Xor(left, right),
                BinaryOperator::Implies => Answer::Implies(left, right),
                BinaryOperator::Iff => Answer::Iff(left, right),
                BinaryOperator::Until
                | BinaryOperator::Release
                | BinaryOperator::WeakUntil
                | BinaryOperator::StrongRelease => Answer::Leaf,
            }
        }
    }
}

/// Returns whether a node holds always: `G` goes into conjunctions.
fn answer_always(node: FormulaNode) -> Answer {
    match node {
        FormulaNode::Constant(value) => Answer::Constant(value),
        FormulaNode::Unary(UnaryOperator::Not, part) => Answer::Not(Question::sometime(part)),
        FormulaNode::Unary(UnaryOperator::Globally, part) => Answer::Same(Question::always(part)),
        FormulaNode::Binary(BinaryOperator::And, left, right) => {
            Answer::And(Question::always(left), Question::always(right))
        }
        _ => Answer::Leaf,
    }
}

/// Returns whether a node holds sometime: `F` goes into disjunctions.
fn answer_sometime(node: FormulaNode) -> Answer {
    match node {
        FormulaNode::Constant(value) => Answer::Constant(value),
        FormulaNode::Unary(UnaryOperator::Not, part) => Answer::Not(Question::always(part)),
        FormulaNode::Unary(UnaryOperator::Finally, part) => Answer::Same(Question::sometime(part)),
        FormulaNode::Binary(BinaryOperator::Or, left, right) => {
            Answer::Or(Question::sometime(left), Question::sometime(right))
        }
        FormulaNode::Binary(BinaryOperator::Implies, left, right) => {
            Answer::Implies(Question::always(left), Question::sometime(right))
        }
        _ => Answer::Leaf,
    }
}
