//! Laws of the texts of circuits, for callers' proofs. A call does nothing and states one law.

ghost use Rattle.omega_aiger.specs.BinaryText.{BinaryCircuitsAreRead, SameCircuitsAreWritable};
ghost use Rattle.omega_aiger.specs.Laws.{CircuitRefusalsAreOne, CircuitsAreNotRefused, CircuitsOfTextsAreOne};
ghost use Rattle.omega_aiger.specs.Written.{ReadCircuitsAreWritable, WrittenCircuitsAreRead};

/// States that a text says at most one circuit.
pub fn circuits_of_texts_are_one()
    ensures { CircuitsOfTextsAreOne }
{}

/// States that a text that says a circuit has no refusal.
pub fn circuits_are_not_refused()
    ensures { CircuitsAreNotRefused }
{}

/// States that a text has at most one refusal.
pub fn circuit_refusals_are_one()
    ensures { CircuitRefusalsAreOne }
{}

/// States that a circuit that some text says can be written, if its text is within the limit.
pub fn read_circuits_are_writable()
    ensures { ReadCircuitsAreWritable }
{}

/// States that the text that is written for a circuit says that circuit, if the circuit can be written.
pub fn written_circuits_are_read()
    ensures { WrittenCircuitsAreRead }
{}

/// States that a circuit that means the same as one that some text says can be written, if its text is within the
/// limit.
pub fn same_circuits_are_writable()
    ensures { SameCircuitsAreWritable }
{}

/// States that the text that is written for a circuit in canonical form in the binary form says that circuit, if the
/// circuit can be written.
pub fn binary_circuits_are_read()
    ensures { BinaryCircuitsAreRead }
{}
