//! Laws of what `satisfies` and `equal -f` answer, in words of texts and of the words that automata accept and that
//! satisfy formulas: each call does nothing and states one law.

ghost use Rattle.omega_laws.specs.FormulaTexts.{AdmittedWordsSatisfy, EqualTextsHaveTheWords};
ghost use Rattle.omega_laws.specs.FormulaTexts.{SatisfyingTextsSatisfy};

use crate::describing::described_automata_are_alike;
use omega_answers_formula::laws::formula_names_are_strings;
use omega_hoa_round_trips::read_automata_are_writable;
use omega_lang_word_text::laws::{names_are_strings, words_of_texts_are_one};
use omega_ltl_text::laws::formulas_of_texts_are_one;

/// Shows what `satisfies` answers of the texts of formulas and of one that describes an automaton: for each formula
/// `yes` only if each word that the automaton accepts satisfies it. Otherwise there are words that are accepted and do
/// not satisfy it. With an explanation the answer ends in these words. `yes` has the premise of the limited principle
/// of omniscience, and `no` has none. Wherever there is an answer, each text says or describes something.
pub fn satisfying_texts_satisfy()
    ensures { SatisfyingTextsSatisfy }
{
    described_automata_are_alike();
    read_automata_are_writable();
    formulas_of_texts_are_one();
    formula_names_are_strings();
}

/// Shows what `satisfies --word` answers of the texts of formulas and of that of a word: for each formula `yes` only if
/// each word that is admitted satisfies it, and otherwise words that are admitted and do not satisfy it, with the same
/// premise.
pub fn admitted_words_satisfy()
    ensures { AdmittedWordsSatisfy }
{
    names_are_strings();
    words_of_texts_are_one();
    formulas_of_texts_are_one();
    formula_names_are_strings();
}

/// Shows what `equal -f` answers of the texts of formulas and of one that describes an automaton: for each formula
/// `yes` only if the automaton accepts exactly the words that satisfy it. Otherwise there are words that it accepts and
/// that do not satisfy the formula, or words that do and that it does not accept. With an explanation a line after `no`
/// says which of the two is so, and the answer ends in these words. `yes` has the premise of the limited principle of
/// omniscience; `no` has none for its words.
pub fn equal_texts_have_the_words()
    ensures { EqualTextsHaveTheWords }
{
    described_automata_are_alike();
    read_automata_are_writable();
    formulas_of_texts_are_one();
    formula_names_are_strings();
}
