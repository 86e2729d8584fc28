use omega_lang_intersection::Example;

/// Whether each word of a circuit is wanted: a specification accepts it, or it satisfies a formula.
#[derive(Debug, Drop, PartialEq, Eq)]
pub enum CircuitJudgement {
    /// Each word of the circuit is wanted.
    Realizes,
    /// Some word of the circuit is not, which this example shows: a counterexample. Its lasso is one of the automaton
    /// that `circuit_automaton` returns.
    Violates(Example),
}
