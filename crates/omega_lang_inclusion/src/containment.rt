use omega_lang_intersection::Example;

/// Whether an automaton accepts only words that another accepts.
#[derive(Debug, Drop, PartialEq, Eq)]
pub enum Containment {
    /// The other accepts each word that the one accepts.
    Contained,
    /// The one accepts a word that the other does not accept, which this example shows: a counterexample.
    NotContained(Example),
}
