//! Laws of the circuits that `realize --aiger` writes. A call does nothing and states one law.

ghost use Rattle.omega_answers_circuit.specs.WritingLaws.{WrittenCircuitsAreJudged};
ghost use Rattle.omega_answers_circuit.specs.WritingLaws.{WrittenCircuitsRealize, WrittenFormulaCircuitsAreJudged};
ghost use Rattle.omega_answers_circuit.specs.WritingLaws.{WrittenFormulaCircuitsAreNotAtFault};
ghost use Rattle.omega_answers_circuit.specs.WritingLaws.{WrittenFormulaCircuitsSatisfy};

use crate::judging_laws::{circuit_verdicts_are_exact, formula_circuit_verdicts_are_exact};
use omega_aiger::laws::{circuits_are_not_refused, circuits_of_texts_are_one};
use omega_hoa::automata_are_one;
use omega_ltl_text::laws::{formulas_are_not_refused, formulas_of_texts_are_one};

/// States that each text that `write_winning_circuit` returns with [Exit::Done] is that of a circuit. Its inputs and
/// outputs are the propositions of the automaton of the given text, which accepts each of its words by the limited
/// principle of omniscience.
pub fn written_circuits_realize()
    ensures { WrittenCircuitsRealize }
{
    automata_are_one();
    circuits_of_texts_are_one();
}

/// States that each text that `write_formula_circuit` returns with [Exit::Done] is that of a circuit. Its inputs and
/// outputs are the names of the formula of the given text, and by that principle each of its words satisfies the
/// formula.
pub fn written_formula_circuits_satisfy()
    ensures { WrittenFormulaCircuitsSatisfy }
{
    formulas_of_texts_are_one();
    circuits_of_texts_are_one();
}

/// States that `verify_circuit` returns `yes` of each circuit that `write_winning_circuit` returns, unless it fails. It
/// has the same premise.
pub fn written_circuits_are_judged()
    ensures { WrittenCircuitsAreJudged }
{
    written_circuits_realize();
    circuit_verdicts_are_exact();
}

/// States that `verify_formula_circuit` returns `yes` of each circuit that `write_formula_circuit` returns, unless it
/// fails. It has the same premise.
pub fn written_formula_circuits_are_judged()
    ensures { WrittenFormulaCircuitsAreJudged }
{
    written_formula_circuits_satisfy();
    formula_circuit_verdicts_are_exact();
}

/// States that no refusal of `verify_formula_circuit` is about the text of a circuit that `write_formula_circuit`
/// returns, or about the text that it was returned for. It is want of memory, or a limit is passed.
pub fn written_formula_circuits_are_not_at_fault()
    ensures { WrittenFormulaCircuitsAreNotAtFault }
{
    formulas_of_texts_are_one();
    formulas_are_not_refused();
    circuits_of_texts_are_one();
    circuits_are_not_refused();
}
