use omega_lang_intersection::Example;
use omega_lang_lasso_word::LassoWord;

/// Whether an automaton accepts exactly the words that satisfy a formula.
#[derive(Debug, Drop, PartialEq, Eq)]
pub enum FormulaEquality {
    /// It does.
    Equal,
    /// It accepts a word that does not satisfy the formula, which this counterexample shows.
    Excess(Example),
    /// Each word that it accepts satisfies the formula, but it does not accept these words, which satisfy it. Their
    /// letters are over the names of the automaton and of the formula.
    Missing(LassoWord),
}
