//! Laws of what `realize -f` answers, in words of strategies over the names of a formula: each call does nothing and
//! states one law.

ghost use Rattle.omega_laws.specs.RealizedFormulas.{FormulaWinnersAreExact, RealizeFormulaAnswersAreExact};

use omega_hoa_automaton::meanings_are_automata;
use omega_lang_word_laws::words_are_named;
use omega_ltl_text::laws::formulas_of_texts_are_one;
use omega_synth_formula::{
    controllers_realize_formulas, counter_strategies_beat_formulas,
    formula_counter_judgements_are_exact, formula_judgements_are_exact,
};

/// Shows what `realize -f` answers of the text of a formula: `realizable` exactly if some strategy of the system
/// realizes the formula, and `unrealizable` exactly if some strategy of the environment beats it. It has the premise of
/// the limited principle of omniscience.
pub fn realize_formula_answers_are_exact()
    ensures { RealizeFormulaAnswersAreExact }
{
    formulas_of_texts_are_one();
    meanings_are_automata();
    words_are_named();
    formula_judgements_are_exact();
    formula_counter_judgements_are_exact();
    controllers_realize_formulas();
    counter_strategies_beat_formulas();
}

/// Shows that the exit of `realize -f --controller` says the same, with the same premise.
pub fn formula_winners_are_exact()
    ensures { FormulaWinnersAreExact }
{
    formulas_of_texts_are_one();
    meanings_are_automata();
    words_are_named();
    formula_judgements_are_exact();
    formula_counter_judgements_are_exact();
    controllers_realize_formulas();
    counter_strategies_beat_formulas();
}
