use omega_lang_lasso_word::LassoWord;

/// Whether each word that a symbolic word admits satisfies a formula.
#[derive(Debug, Drop, PartialEq, Eq)]
pub enum WordSatisfaction {
    /// Each of them satisfies the formula.
    Satisfied,
    /// These do not satisfy the formula. Their letters are over the names of the symbolic word and of the formula.
    NotSatisfied(LassoWord),
}
