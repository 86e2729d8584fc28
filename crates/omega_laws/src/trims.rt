//! Laws of trimmed automata: each call does nothing and states one law.

ghost use Rattle.omega_laws.specs.Trims.{TrimmedTextsAcceptTheSame, TrimsAcceptTheSame, TrimsAreOne};

use crate::describing::described_automata_are_alike;
use crate::written_texts::written_automata_are_read_back;
use omega_hoa_automaton::meanings_are_automata;
use omega_hoa_round_trips::read_automata_are_writable;
use omega_lang_runs::accepting_runs_have_lassos;

/// Shows that an automaton without universal branching accepts exactly the words that it accepts without its useless
/// states.
pub fn trims_accept_the_same()
    ensures { TrimsAcceptTheSame }
{
    accepting_runs_have_lassos();
}

/// Shows that what `trim` writes for a text is the text of an automaton that accepts the same words, if it is within
/// the limit of texts.
pub fn trimmed_texts_accept_the_same()
    ensures { TrimmedTextsAcceptTheSame }
{
    described_automata_are_alike();
    meanings_are_automata();
    read_automata_are_writable();
    written_automata_are_read_back();
    trims_accept_the_same();
}

/// Shows that an automaton has one trimmed automaton, so that `trim` can return no other.
pub fn trims_are_one()
    ensures { TrimsAreOne }
{}
