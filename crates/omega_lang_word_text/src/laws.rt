//! Laws of the texts of words, for callers' proofs. A call does nothing and states one law.

ghost use Rattle.omega_text.specs.Format.{GoesOneWay};
ghost use Rattle.omega_lang_word_text.specs.Cut.{word_format};
ghost use Rattle.omega_lang_word_text.specs.Laws.{FittingTextsAreRead, NamesAreStrings};
ghost use Rattle.omega_lang_word_text.specs.Laws.{WordsAreNotRefused, WordsOfTextsAreOne};

use omega_hoa_label_text::labels_are_one;
use omega_text::hoa::laws::{closed_are_longest, numbers_are_longest, words_are_longest};
use omega_text::{HoaKind, TokenKind};

/// States that from each place the text of a word goes on in one way: with one token, with one fault, or with nothing
/// more.
pub fn word_texts_go_on_one_way()
    ensures { GoesOneWay word_format }
{
    HoaKind::goes_on_one_way();
}

/// States that the names of a word that a text says are strings, so that a text of an automaton can write them.
pub fn names_are_strings()
    ensures { NamesAreStrings }
{}

/// States that a text says at most one word.
pub fn words_of_texts_are_one()
    ensures { WordsOfTextsAreOne }
{
    labels_are_one();
    word_texts_go_on_one_way();
}

/// States that a text that says a word has no refusal.
pub fn words_are_not_refused()
    ensures { WordsAreNotRefused }
{
    word_texts_go_on_one_way();
}

/// States that a text that some word fits is read as a word, if it is within the limit of texts, and that this word
/// admits exactly the words that fit the text.
pub fn fitting_texts_are_read()
    ensures { FittingTextsAreRead }
{
    closed_are_longest();
    numbers_are_longest();
    words_are_longest();
    words_of_texts_are_one();
}
