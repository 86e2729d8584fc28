//! The law of canonical texts by what is written of automata. The call does nothing and states it.

ghost use Rattle.omega_laws.specs.WrittenTexts.{WrittenAutomataAreReadBack};

use omega_acc::{
    acc_texts_are_formulas, label_texts_are_labels, written_formulas_are_shallowest,
    written_formulas_mean, written_labels_are_shallowest, written_labels_mean,
};
use omega_hoa::automata_fill_segments;
use omega_hoa_automaton::{meanings_are_automata, meanings_have_no_fault};
use omega_text::HoaKind;
use omega_text::hoa::laws::{
    closed_are_longest, numbers_are_longest, numbers_are_plain, words_are_longest,
};
use omega_text::laws::cuts_join;

/// Shows that the canonical text of an automaton is the text of that automaton, if it is within the limit of texts, a
/// text can have the strings and numbers of the automaton, and the automaton is what it means as it is written.
pub fn written_automata_are_read_back()
    ensures { WrittenAutomataAreReadBack }
{
    cuts_join::<HoaKind>();
    numbers_are_longest();
    numbers_are_plain();
    words_are_longest();
    closed_are_longest();
    label_texts_are_labels();
    written_labels_mean();
    acc_texts_are_formulas();
    written_formulas_mean();
    written_labels_are_shallowest();
    written_formulas_are_shallowest();
    meanings_have_no_fault();
    meanings_are_automata();
    automata_fill_segments();
}
