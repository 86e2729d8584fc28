//! Laws of canonical texts, for callers' proofs. Each function does nothing and states one law.

ghost use Rattle.omega_hoa_round_trips.specs.Laws.{CanonicalStreamsAreRead, CanonicalTextsAreRead};
ghost use Rattle.omega_hoa_round_trips.specs.Laws.{CanonicalTextsAreSpelled, ReadAutomataAreWritable};

use omega_acc::{
    acc_texts_are_formulas, label_texts_are_labels, written_formulas_are_shallowest,
    written_formulas_mean, written_labels_are_shallowest, written_labels_mean,
};
use omega_hoa::automata_fill_segments;
use omega_hoa_automaton::{meanings_are_automata, meanings_have_no_fault};
use omega_text::HoaKind;
use omega_text::hoa::laws::{
    closed_are_longest, numbers_are_longest, numbers_are_plain, words_are_longest,
};
use omega_text::laws::cuts_join;

/// States that an automaton that was read can be written: a text can have its identifiers, strings and numbers.
pub fn read_automata_are_writable()
    ensures { ReadAutomataAreWritable }
{
    meanings_are_automata();
}

/// States that the canonical text of an automaton that can be written is cut into the tokens of the automaton as it is
/// written.
pub fn canonical_texts_are_spelled()
    ensures { CanonicalTextsAreSpelled }
{
    cuts_join::<HoaKind>();
    numbers_are_longest();
    numbers_are_plain();
    words_are_longest();
    closed_are_longest();
    label_texts_are_labels();
    written_labels_mean();
    acc_texts_are_formulas();
    written_formulas_mean();
}

/// States that the canonical text of an automaton that was read, alone or in a stream, is the text of that automaton if
/// it is within the limit of texts. So `read_one` reads it back.
pub fn canonical_texts_are_read()
    ensures { CanonicalTextsAreRead }
{
    automata_fill_segments();
    cuts_join::<HoaKind>();
    numbers_are_longest();
    numbers_are_plain();
    words_are_longest();
    closed_are_longest();
    label_texts_are_labels();
    written_labels_mean();
    written_labels_are_shallowest();
    acc_texts_are_formulas();
    written_formulas_mean();
    written_formulas_are_shallowest();
    meanings_have_no_fault();
    meanings_are_automata();
}

/// States that the canonical texts of the automata of a stream, one after the other, are a stream of these automata if
/// they are within the limit of texts. So `read_stream` reads them back. Segments that are aborted are left out.
pub fn canonical_streams_are_read()
    ensures { CanonicalStreamsAreRead }
{
    automata_fill_segments();
    cuts_join::<HoaKind>();
    numbers_are_longest();
    numbers_are_plain();
    words_are_longest();
    closed_are_longest();
    label_texts_are_labels();
    written_labels_mean();
    written_labels_are_shallowest();
    acc_texts_are_formulas();
    written_formulas_mean();
    written_formulas_are_shallowest();
    meanings_have_no_fault();
    meanings_are_automata();
}
