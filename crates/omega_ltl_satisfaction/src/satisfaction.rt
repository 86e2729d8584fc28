use omega_lang_intersection::Example;

/// Whether each word that an automaton accepts satisfies a formula.
#[derive(Debug, Drop, PartialEq, Eq)]
pub enum Satisfaction {
    /// Each word that it accepts satisfies the formula.
    Satisfied,
    /// It accepts a word that does not satisfy the formula, which this example shows: a counterexample.
    NotSatisfied(Example),
}
