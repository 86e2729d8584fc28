use omega_lang_lasso_word::LassoWord;
use omega_text::Seq;

/// Whether two automata accept a common word.
#[derive(Debug, Drop, PartialEq, Eq)]
pub enum Intersection {
    /// No word is accepted by both.
    Empty,
    /// Both accept these words.
    Common(Example),
}

/// Words that show something of two automata, and an accepting lasso along which the first of the two accepts them.
#[derive(Debug, Drop, PartialEq, Eq)]
pub struct Example {
    /// The words. Their letters are over the names of both automata.
    pub word: LassoWord,
    /// The edges from a start to the cycle, by their numbers in the first automaton. There may be none.
    pub stem: Seq<u32>,
    /// The edges of the cycle, likewise, at least one.
    pub cycle: Seq<u32>,
}
