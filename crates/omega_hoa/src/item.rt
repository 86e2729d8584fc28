use omega_hoa_automaton::Automaton;

/// The result of a segment of a stream.
#[derive(Drop)]
pub enum Item {
    /// The automaton of a segment that ends with `--END--`.
    Automaton(Automaton),
    /// A segment that ends with `--ABORT--`: nothing of it is kept.
    Aborted,
}
