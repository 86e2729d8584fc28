//! Laws of the texts of products: each call does nothing and states one law.

ghost use Rattle.omega_laws.specs.ProductTexts.{ProductsAreReadBack};

use omega_acc::{
    acc_texts_are_formulas, label_texts_are_labels, written_formulas_are_shallowest,
    written_formulas_mean, written_labels_are_shallowest, written_labels_mean,
};
use omega_hoa::automata_fill_segments;
use omega_hoa_automaton::{meanings_are_automata, meanings_have_no_fault};
use omega_hoa_round_trips::read_automata_are_writable;
use omega_text::HoaKind;
use omega_text::hoa::laws::{
    closed_are_longest, numbers_are_longest, numbers_are_plain, words_are_longest,
};
use omega_text::laws::cuts_join;

/// Shows that the canonical text of the product of two automata that were read is the text of that product, if it is
/// within the limit of texts.
pub fn products_are_read_back()
    ensures { ProductsAreReadBack }
{
    cuts_join::<HoaKind>();
    numbers_are_longest();
    numbers_are_plain();
    words_are_longest();
    closed_are_longest();
    label_texts_are_labels();
    written_labels_mean();
    acc_texts_are_formulas();
    written_formulas_mean();
    written_labels_are_shallowest();
    written_formulas_are_shallowest();
    meanings_have_no_fault();
    meanings_are_automata();
    automata_fill_segments();
    read_automata_are_writable();
}
