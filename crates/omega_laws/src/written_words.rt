//! The law of the words that `empty --word` writes. The call does nothing and states it.

ghost use Rattle.omega_laws.specs.WrittenWords.{WrittenWordsAreAccepted};

use omega_hoa::{automata_are_one, automata_are_unrefused};
use omega_hoa_automaton::meanings_are_automata;
use omega_hoa_round_trips::read_automata_are_writable;
use omega_lang_lasso_text::laws::words_and_runs_are_passed_over;
use omega_lang_lasso_word::laws::{fitting_words_are_accepted, words_fit_where_edges_can_be_taken};
use omega_lang_word_text::laws::{
    fitting_texts_are_read, words_are_not_refused, words_of_texts_are_one,
};

/// Shows that the word that `empty --word` writes for a text is, within the limit of texts, a word that `accepts`
/// reads. With this word and the same text, `accepts` never answers `no`.
///
/// No refusal is then about the word. One about the text is `TaskFault::NotDeterministic`: its automaton has a choice,
/// and a letter of the word leaves one of its propositions open. So there is none about a deterministic automaton.
pub fn written_words_are_accepted()
    ensures { WrittenWordsAreAccepted }
{
    words_and_runs_are_passed_over();
    meanings_are_automata();
    automata_are_one();
    automata_are_unrefused();
    read_automata_are_writable();
    fitting_words_are_accepted();
    words_fit_where_edges_can_be_taken();
    fitting_texts_are_read();
    words_of_texts_are_one();
    words_are_not_refused();
}
