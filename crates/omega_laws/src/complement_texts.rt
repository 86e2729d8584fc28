//! Laws of the texts of complements: each call does nothing and states one law.

ghost use Rattle.omega_laws.specs.ComplementTexts.{ComplementTextsAcceptTheRest, ComplementsAreReadBack};

use crate::describing::described_automata_are_alike;
use omega_acc::{
    acc_texts_are_formulas, label_texts_are_labels, written_formulas_are_shallowest,
    written_formulas_mean, written_labels_are_shallowest, written_labels_mean,
};
use omega_hoa::automata_fill_segments;
use omega_hoa_automaton::{meanings_are_automata, meanings_have_no_fault};
use omega_hoa_round_trips::read_automata_are_writable;
use omega_lang_word_laws::complements_part_by_name;
use omega_text::HoaKind;
use omega_text::hoa::laws::{
    closed_are_longest, numbers_are_longest, numbers_are_plain, words_are_longest,
};
use omega_text::laws::cuts_join;

/// Shows that the canonical text of the complement of an automaton that was read is the text of that complement, if it
/// is within the limit of texts.
pub fn complements_are_read_back()
    ensures { ComplementsAreReadBack }
{
    cuts_join::<HoaKind>();
    numbers_are_longest();
    numbers_are_plain();
    words_are_longest();
    closed_are_longest();
    label_texts_are_labels();
    written_labels_mean();
    acc_texts_are_formulas();
    written_formulas_mean();
    written_labels_are_shallowest();
    written_formulas_are_shallowest();
    meanings_have_no_fault();
    meanings_are_automata();
    automata_fill_segments();
    read_automata_are_writable();
}

/// Shows that what `complement` writes for a text is the text of an automaton, if it is within the limit of texts, and
/// that each word is accepted by exactly one of the two. That one of them accepts it has the premise of
/// `complements_cover`, but for an ultimately periodic word.
pub fn complement_texts_accept_the_rest()
    ensures { ComplementTextsAcceptTheRest }
{
    described_automata_are_alike();
    meanings_are_automata();
    complements_are_read_back();
    complements_part_by_name();
}
