//! A formula as a Boolean combination of leaves: its maximal temporal parts.
use crate::question::{Answer, Question, When};
use crate::questions::QuestionTable;
use omega_graph_search::{NONE, number_of};
use omega_ltl_formula::{Formula, FormulaNode};
use omega_ltl_parity_product::Combination;
use std::alloc::{AllocError, Global};

/// A formula, taken apart.
#[derive(Drop)]
pub(crate) struct Parts {
    /// The leaves: each once.
    pub leaves: Vec<Question>,
    /// The combination of them that the formula is.
    pub combination: Vec<Combination>,
}

/// Returns a formula, taken apart. Linear in its nodes.
pub(crate) fn parts_of(alloc: Global, formula: &Formula) -> Result<Parts, AllocError> {
    let nodes = formula.nodes();
    let asked = asked_questions(alloc, nodes, formula.root())?;
    let mut parting = Parting {
        numbers: QuestionTable::new(alloc, nodes.len())?,
        parts: Parts {
            leaves: Vec::new(alloc),
            combination: Vec::new(alloc),
        },
    };
    for (number, node) in nodes.iter().enumerate() {
        for when in [When::Now, When::Always, When::Sometime] {
            let question = Question { when, node: number };
            if asked.at(question) != NONE {
                parting.add(question, question.answer(*node))?;
            }
        }
    }
    let Parting { numbers: _, parts } = parting;
    Ok(parts)
}

/// Returns the questions on which depends whether a formula with these nodes and this root holds now. They have
/// numbers.
fn asked_questions(
    alloc: Global,
    nodes: &[FormulaNode],
    root: usize,
) -> Result<QuestionTable, AllocError> {
    let mut asked = QuestionTable::new(alloc, nodes.len())?;
    asked.put(Question::now(root), 0);
    // Operands come before their nodes.
    for (number, node) in nodes.iter().enumerate().rev() {
        for when in [When::Now, When::Always, When::Sometime] {
            let question = Question { when, node: number };
            if asked.at(question) != NONE {
                asked.put_all(question.answer(*node), 0);
            }
        }
    }
    Ok(asked)
}

/// A formula that is being taken apart.
#[derive(Drop)]
struct Parting {
    // By question the node of the combination that answers it.
    numbers: QuestionTable,
    parts: Parts,
}

impl Parting {
    /// Adds a question with its answer, after those by which it is answered.
    fn add(&mut self, question: Question, answer: Answer) -> Result<(), AllocError> {
        let number = match answer {
            Answer::Same(one) => self.numbers.at(one),
            Answer::Constant(value) => self.push(Combination::Constant(value))?,
            Answer::Leaf => self.push_leaf(question)?,
            Answer::Not(one) => {
                let one = self.numbers.at(one);
                self.push(Combination::Not(one))?
            }
            Answer::And(one, other) => {
                let (one, other) = self.numbers_of(one, other);
                self.push(Combination::And(one, other))?
            }
            Answer::Or(one, other) => {
                let (one, other) = self.numbers_of(one, other);
                self.push(Combination::Or(one, other))?
            }
            Answer::Implies(one, other) => {
                let (one, other) = self.numbers_of(one, other);
                let not = self.push(Combination::Not(one))?;
                self.push(Combination::Or(not, other))?
            }
            Answer::Iff(one, other) => {
                let (one, other) = self.numbers_of(one, other);
                self.push(Combination::Iff(one, other))?
            }
            Answer::Xor(one, other) => {
                let (one, other) = self.numbers_of(one, other);
                let same = self.push(Combination::Iff(one, other))?;
                self.push(Combination::Not(same))?
            }
        };
        self.numbers.put(question, number);
        Ok(())
    }

    /// Returns the numbers of two questions.
    fn numbers_of(&self, one: Question, other: Question) -> (u32, u32) {
        (self.numbers.at(one), self.numbers.at(other))
    }

    /// Adds a leaf, and returns the number of its node.
    fn push_leaf(&mut self, question: Question) -> Result<u32, AllocError> {
        let leaf = number_of(self.parts.leaves.len());
        self.parts.leaves.push(question)?;
        self.push(Combination::Leaf(leaf))
    }

    /// Adds a node of the combination, and returns its number.
    fn push(&mut self, node: Combination) -> Result<u32, AllocError> {
        let number = number_of(self.parts.combination.len());
        self.parts.combination.push(node)?;
        Ok(number)
    }
}
