use omega_lang_lasso_word::LassoWord;

/// Whether an automaton accepts each word that a symbolic word admits.
#[derive(Debug, Drop, PartialEq, Eq)]
pub enum Membership {
    /// It accepts each of them.
    Accepted,
    /// It does not accept these. Their letters are over the names of the symbolic word, and may be over the automaton's
    /// other names too.
    Rejected(LassoWord),
}
