//! Laws of circuits, for readers and callers' proofs. Each function does nothing and states one law.

ghost use Rattle.omega_circuit.specs.Laws.{CircuitsRun, PartsAreJudged, ValuesAreRuns};
ghost use Rattle.omega_circuit.specs.declared.parts.CircuitParts.{CircuitParts};

pub use crate::limits::circuit_limits_are_stated;

/// States that a circuit has a run for each sequence of letters, and that two such runs agree on all that is defined.
pub fn circuits_run()
    ensures { CircuitsRun }
{}

/// States that parts have at most one first fault, and none if they make a circuit.
pub fn parts_are_judged()
    ensures { (parts : CircuitParts) → PartsAreJudged parts }
{}

/// States that the values that `round_of`, `next_latches` and `output_values` return round by round are those of a run,
/// and that words with its inputs and outputs are words of the circuit.
pub fn values_are_runs()
    ensures { ValuesAreRuns }
{}
