use omega_lang_inclusion::Example;
use omega_text::{Numbers, Seq};

/// Whether an automaton is a controller for a specification.
#[derive(Debug, Drop, PartialEq, Eq)]
pub enum Judgement {
    /// It is one.
    Controls,
    /// It has no start.
    NoStart,
    /// A state that it reaches does not answer a letter of the environment.
    Unanswered(Lack),
    /// It accepts a word that the specification does not accept.
    NotAccepted(Example),
}

/// A state, and a letter of the environment that no edge of it answers.
#[derive(Debug, Drop, PartialEq, Eq)]
pub struct Lack {
    /// The number of the state.
    pub state: u32,
    /// The letter: the propositions of the environment that hold, by number. All others do not.
    pub letter: Numbers,
    /// The numbers of edges that lead from a start to the state, in order.
    pub stem: Seq<u32>,
}
