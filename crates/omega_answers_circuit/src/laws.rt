//! Laws of the answers about texts of circuits. Each function does nothing and states one law.

ghost use Rattle.omega_answers_circuit.specs.Laws.{CanonicalCircuitTextsAreKept, CanonicalCircuitTextsMeanTheSame};
ghost use Rattle.omega_answers_circuit.specs.Laws.{CircuitAnswersAreOne, CircuitAutomataAreOfTexts};
ghost use Rattle.omega_answers_circuit.specs.Laws.{CircuitFormsMeanTheSame, CircuitFormsSayTheSame};

use omega_aiger::laws::{circuits_are_not_refused, circuits_of_texts_are_one};

/// States that `check` and `show` have one answer for each text of a circuit, and none for a text that is refused.
pub fn circuit_answers_are_one()
    ensures { CircuitAnswersAreOne }
{
    circuits_of_texts_are_one();
    circuits_are_not_refused();
}

/// States that what `canon` writes of a text says a circuit in canonical form that means the same as that of the text.
pub fn canonical_circuit_texts_mean_the_same()
    ensures { CanonicalCircuitTextsMeanTheSame }
{
    circuits_of_texts_are_one();
}

/// States that `canon` returns what it wrote as it is.
pub fn canonical_circuit_texts_are_kept()
    ensures { CanonicalCircuitTextsAreKept }
{
    circuits_of_texts_are_one();
}

/// States that what `canon` makes of its own text in another form says the same circuit.
pub fn circuit_forms_say_the_same()
    ensures { CircuitFormsSayTheSame }
{
    circuits_of_texts_are_one();
}

/// States that what `canon` writes of one text in two forms means the same.
pub fn circuit_forms_mean_the_same()
    ensures { CircuitFormsMeanTheSame }
{
    circuits_of_texts_are_one();
}

/// States that what `automaton` writes for a text is the text of an automaton of the circuit that the text says.
pub fn circuit_automata_are_of_texts()
    ensures { CircuitAutomataAreOfTexts }
{
    circuits_of_texts_are_one();
}
