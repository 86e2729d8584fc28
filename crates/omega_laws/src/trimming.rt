//! The law of what `meet --trim` writes. The call does nothing and states it.

ghost use Rattle.omega_laws.specs.Trimming.{TrimmedMeetingsAcceptBoth};

use crate::describing::described_automata_are_alike;
use crate::trims_accept_the_same;
use crate::written_texts::written_automata_are_read_back;
use omega_hoa_automaton::meanings_are_automata;
use omega_hoa_round_trips::read_automata_are_writable;
use omega_lang_word_laws::products_meet_by_name;

/// Shows that what `meet --trim` writes for two texts is the text of an automaton that accepts a word exactly if both
/// texts do, if it is within the limit of texts.
pub fn trimmed_meetings_accept_both()
    ensures { TrimmedMeetingsAcceptBoth }
{
    described_automata_are_alike();
    meanings_are_automata();
    read_automata_are_writable();
    written_automata_are_read_back();
    products_meet_by_name();
    trims_accept_the_same();
}
