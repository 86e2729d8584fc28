use omega_lang_intersection::Example;
use omega_text::Seq;

/// Whether an automaton is a counter-strategy for a specification.
#[derive(Debug, Drop, PartialEq, Eq)]
pub enum CounterJudgement {
    /// It is one.
    Beats,
    /// It has no start, and the specification has one.
    NoStart,
    /// It comes to a state in which the environment has no letter such that it goes on at each answer.
    NoLetter(LetterlessPair),
    /// It accepts a word that the specification accepts too.
    Common(Example),
}

/// A state of a counter-strategy and one of its specification, to which both come by the same letters. Whatever letter
/// the environment gives, the system has an answer at which the specification goes on and the counter-strategy does
/// not.
#[derive(Debug, PartialEq, Eq)]
pub struct LetterlessPair {
    /// The number of the state of the counter-strategy.
    pub state: u32,
    /// The number of the state of the specification.
    pub against: u32,
    /// The numbers of edges of the specification that lead from a start to its state, in order.
    pub stem: Seq<u32>,
}

impl Drop for LetterlessPair {
    fn drop(self) {
        let LetterlessPair {
            state: _,
            against: _,
            stem: _,
        } = self;
    }
}
