//! Laws of what `verify` answers of circuits, and of the circuits that `realize --aiger` writes, in words of what texts
//! describe: each call does nothing and states one law.

ghost use Rattle.omega_laws.specs.JudgedCircuits.{CircuitsAreJudged, FormulaCircuitsAreExact};
ghost use Rattle.omega_laws.specs.JudgedCircuits.{FormulaCircuitsAreJudged, WinningCircuitsAreExact};

use crate::specification_texts::winners_of_texts_are_exact;
use omega_aiger::laws::circuits_of_texts_are_one;
use omega_answers_circuit::judging_laws::{
    circuit_verdicts_are_exact, formula_circuit_verdicts_are_exact,
};
use omega_answers_circuit::writing_laws::{
    written_circuits_realize, written_formula_circuits_satisfy,
};
use omega_hoa_automaton::meanings_are_automata;
use omega_hoa_syntax::raws_are_one;
use omega_lang_word_laws::words_are_named;
use omega_ltl_text::laws::formulas_of_texts_are_one;
use omega_synth_formula::{
    controllers_realize_formulas, counter_strategies_beat_formulas,
    formula_counter_judgements_are_exact, formula_judgements_are_exact,
};
use omega_text::HoaKind;
use omega_text::laws::cuts_are_one;

/// Shows that `verify --specification` answers `yes` to the text of a circuit exactly if the automaton that the other
/// text describes accepts each word of the circuit, by the limited principle of omniscience. Where it answers, inputs
/// and outputs have the sides that the item of the specification says.
pub fn circuits_are_judged()
    ensures { CircuitsAreJudged }
{
    cuts_are_one::<HoaKind>();
    raws_are_one();
    circuits_of_texts_are_one();
    circuit_verdicts_are_exact();
}

/// Shows that `verify -f` answers `yes` to the text of a circuit exactly if each word of the circuit satisfies the
/// formula, by the same principle. Where it answers, no input is named like an output of the formula, and no output
/// like another of its names.
pub fn formula_circuits_are_judged()
    ensures { FormulaCircuitsAreJudged }
{
    formulas_of_texts_are_one();
    circuits_of_texts_are_one();
    formula_circuit_verdicts_are_exact();
}

/// Shows what `realize -f --aiger` writes. If some strategy of the system realizes the formula, it is a circuit over
/// its names, each word of which satisfies it. If some strategy of the environment beats it, it is the line
/// `unrealizable`. It has the same premise.
pub fn formula_circuits_are_exact()
    ensures { FormulaCircuitsAreExact }
{
    formulas_of_texts_are_one();
    meanings_are_automata();
    words_are_named();
    formula_judgements_are_exact();
    formula_counter_judgements_are_exact();
    controllers_realize_formulas();
    counter_strategies_beat_formulas();
    written_formula_circuits_satisfy();
}

/// Shows what `realize --aiger` writes of a specification. If some strategy of the system realizes the automaton that
/// the text describes, it is a circuit over its propositions, each word of which it accepts. If some strategy of the
/// environment beats it, it is the line `unrealizable`. It has the same premise.
pub fn winning_circuits_are_exact()
    ensures { WinningCircuitsAreExact }
{
    cuts_are_one::<HoaKind>();
    raws_are_one();
    winners_of_texts_are_exact();
    written_circuits_realize();
}
