//! Laws of the answers of `verify` to the text of a circuit. A call does nothing and states one law.

ghost use Rattle.omega_answers_circuit.specs.JudgingLaws.{CircuitVerdictsAreExact, CircuitYesExcludesNo};
ghost use Rattle.omega_answers_circuit.specs.JudgingLaws.{FormulaCircuitVerdictsAreExact};
ghost use Rattle.omega_answers_circuit.specs.JudgingLaws.{FormulaCircuitYesExcludesNo};

use omega_aiger::laws::circuits_of_texts_are_one;
use omega_hoa::automata_are_one;
use omega_ltl_text::laws::formulas_of_texts_are_one;

/// States that `verify_circuit` returns `yes` exactly if the specification of the one text accepts each word of the
/// circuit of the other, by the limited principle of omniscience.
pub fn circuit_verdicts_are_exact()
    ensures { CircuitVerdictsAreExact }
{
    automata_are_one();
    circuits_of_texts_are_one();
}

/// States that `verify_circuit` does not return both `yes` and `no` for the same texts, by that principle.
pub fn circuit_yes_excludes_no()
    ensures { CircuitYesExcludesNo }
{
    automata_are_one();
    circuits_of_texts_are_one();
}

/// States that `verify_formula_circuit` returns `yes` exactly if each word of the circuit satisfies the formula, by
/// that principle.
pub fn formula_circuit_verdicts_are_exact()
    ensures { FormulaCircuitVerdictsAreExact }
{
    formulas_of_texts_are_one();
    circuits_of_texts_are_one();
}

/// States that `verify_formula_circuit` does not return both `yes` and `no` for the same texts, by that principle.
pub fn formula_circuit_yes_excludes_no()
    ensures { FormulaCircuitYesExcludesNo }
{
    formulas_of_texts_are_one();
    circuits_of_texts_are_one();
}
