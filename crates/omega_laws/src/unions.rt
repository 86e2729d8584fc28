//! Laws of unions: each call does nothing and states one law.

ghost use Rattle.omega_laws.specs.Unions.{JoinedTextsAcceptEither, UnionsAcceptEither};
ghost use Rattle.omega_laws.specs.Unions.{UnionsAcceptEitherByName, UnionsAreOne};

use crate::describing::described_automata_are_alike;
use crate::written_texts::written_automata_are_read_back;
use omega_hoa_automaton::meanings_are_automata;
use omega_hoa_round_trips::read_automata_are_writable;

/// Shows that the union of two automata without universal branching accepts a word over the propositions of both
/// exactly if one of the two accepts its part of the word.
pub fn unions_accept_either()
    ensures { UnionsAcceptEither }
{}

/// Shows that the union of two automata without universal branching accepts a word over names exactly if one of the two
/// does.
pub fn unions_accept_either_by_name()
    ensures { UnionsAcceptEitherByName }
{}

/// Shows that what `join` writes for two texts is the text of an automaton that accepts a word exactly if one of the
/// two texts does, if it is within the limit of texts.
pub fn joined_texts_accept_either()
    ensures { JoinedTextsAcceptEither }
{
    described_automata_are_alike();
    meanings_are_automata();
    read_automata_are_writable();
    written_automata_are_read_back();
    unions_accept_either_by_name();
}

/// Shows that two automata have one union, so that `union` can return no other.
pub fn unions_are_one()
    ensures { UnionsAreOne }
{}
