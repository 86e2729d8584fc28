//! Laws of translations.

ghost use Rattle.omega_ltl_translation.specs.Translation.{RejectedWordsSatisfy};

use omega_ltl_formula::formulas_are_decided;

/// States that by the limited principle of omniscience a word satisfies a formula if the automaton of its negation does
/// not accept the word.
pub fn rejected_words_satisfy()
    ensures { RejectedWordsSatisfy }
{
    formulas_are_decided();
}
