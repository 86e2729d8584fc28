//! Laws of what `contained`, `equal` and `accepts` answer, in words of texts and of the words that they accept: each
//! call does nothing and states one law.

ghost use Rattle.omega_laws.specs.InclusionTexts.{AcceptedTextsAreAccepted};
ghost use Rattle.omega_laws.specs.InclusionTexts.{ContainedTextsAreContained, EqualTextsAreEqual};
ghost use Rattle.omega_laws.specs.InclusionTexts.{SomeTextsAreAccepted};

use crate::describing::described_automata_are_alike;
use omega_hoa_round_trips::read_automata_are_writable;
use omega_lang_word_text::laws::{
    fitting_texts_are_read, names_are_strings, words_of_texts_are_one,
};

/// Shows what `contained` answers of two texts: `yes` only if the text of the file accepts the words that the other
/// accepts, and otherwise words that the other accepts and that of the file does not. With an explanation the answer
/// ends in these words. That all words are accepted has the premise of `complements_cover`, but not for those that are
/// ultimately periodic.
pub fn contained_texts_are_contained()
    ensures { ContainedTextsAreContained }
{
    described_automata_are_alike();
    read_automata_are_writable();
}

/// Shows what `equal` answers of two texts: `yes` only if each accepts the words of the other, and otherwise words that
/// one accepts and the other does not, as `contained` does both ways.
pub fn equal_texts_are_equal()
    ensures { EqualTextsAreEqual }
{
    described_automata_are_alike();
    read_automata_are_writable();
}

/// Shows what `accepts` answers of the text of a word and of that of an automaton: `yes` only if the latter accepts the
/// words that fit the former, and otherwise words that are admitted and not accepted. `yes` needs no premise if each
/// letter fixes each proposition of the automaton.
pub fn accepted_texts_are_accepted()
    ensures { AcceptedTextsAreAccepted }
{
    described_automata_are_alike();
    read_automata_are_writable();
    fitting_texts_are_read();
    names_are_strings();
    words_of_texts_are_one();
}

/// Shows what `accepts --some` answers of the text of a word and of that of an automaton: `yes` only if there are words
/// that are admitted and accepted, in which the answer ends with an explanation, and `no` only if none that fits the
/// text of the word is accepted. Neither has a premise.
pub fn some_texts_are_accepted()
    ensures { SomeTextsAreAccepted }
{
    described_automata_are_alike();
    read_automata_are_writable();
    fitting_texts_are_read();
    names_are_strings();
    words_of_texts_are_one();
}
