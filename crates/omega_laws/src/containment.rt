//! Laws of what `meet`, `complement` and `empty` write, in words of texts and of the words that they accept: each call
//! does nothing and states one law.

ghost use Rattle.omega_laws.specs.Containment.{EmptyMeansContained};
ghost use Rattle.omega_laws.specs.Containment.{LassosMeanNotContained, MetTextsAcceptBoth};

use crate::complement_texts::complements_are_read_back;
use crate::describing::described_automata_are_alike;
use crate::product_texts::products_are_read_back;
use omega_hoa_automaton::meanings_are_automata;
use omega_lang_runs::{empty_accepts_no_word, lassos_have_accepted_words};
use omega_lang_word_laws::{complements_are_apart, complements_cover, products_meet};

/// Shows that what `meet` writes for two texts is the text of an automaton that accepts a word exactly if both texts
/// do, if it is within the limit of texts.
pub fn met_texts_accept_both()
    ensures { MetTextsAcceptBoth }
{
    described_automata_are_alike();
    meanings_are_automata();
    products_are_read_back();
    products_meet();
}

/// Shows that the answer `empty` on the product of a text with the complement of another means that the other accepts
/// each word that the one accepts. The premise is that of `complements_cover`.
pub fn empty_means_contained()
    ensures { EmptyMeansContained }
{
    described_automata_are_alike();
    meanings_are_automata();
    complements_are_read_back();
    complements_cover();
    empty_accepts_no_word();
    met_texts_accept_both();
}

/// Shows that any other answer, which is a lasso, means that the one accepts a word that the other does not accept.
pub fn lassos_mean_not_contained()
    ensures { LassosMeanNotContained }
{
    described_automata_are_alike();
    meanings_are_automata();
    complements_are_read_back();
    complements_are_apart();
    lassos_have_accepted_words();
    met_texts_accept_both();
}
