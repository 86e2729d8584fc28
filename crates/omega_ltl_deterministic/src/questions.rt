use crate::question::{Answer, Question, When};
use omega_graph_search::{NONE, NumberTable, number_of};
use std::alloc::{AllocError, Global};

/// Notes a number for each question on some nodes.
#[derive(Drop)]
pub(crate) struct QuestionTable {
    numbers: NumberTable,
}

/// The places of the questions on one node.
const EACH: usize = 3;

impl QuestionTable {
    /// Returns the table of questions on `nodes` nodes, none of which has a number.
    pub(crate) fn new(alloc: Global, nodes: usize) -> Result<QuestionTable, AllocError> {
        let numbers = NumberTable::filled(alloc, nodes.saturating_mul(EACH), NONE)?;
        Ok(QuestionTable { numbers })
    }

    /// Returns the number of a question, or [`NONE`].
    pub(crate) fn at(&self, question: Question) -> u32 {
        self.numbers.at(place(question))
    }

    /// Notes the number of a question.
    pub(crate) fn put(&mut self, question: Question, number: u32) {
        self.numbers.put(place(question), number);
    }

    /// Notes the number for the questions by which an answer is given.
    pub(crate) fn put_all(&mut self, answer: Answer, number: u32) {
        match answer {
            Answer::Constant(_) | Answer::Leaf => {}
            Answer::Same(one) | Answer::Not(one) => self.put(one, number),
            Answer::And(one, other)
            | Answer::Or(one, other)
            | Answer::Implies(one, other)
            | Answer::Iff(one, other)
            | Answer::Xor(one, other) => {
                self.put(one, number);
                self.put(other, number);
            }
        }
    }
}

/// Returns the place of a question.
fn place(question: Question) -> u32 {
    let offset = match question.when {
        When::Now => 0,
        When::Always => 1,
        When::Sometime => 2,
    };
    number_of(question.node.saturating_mul(EACH).saturating_add(offset))
}
