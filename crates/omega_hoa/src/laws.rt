//! Laws of texts of one automaton, of streams and of automata in tokens, whatever the code does. Each function does
//! nothing and states one law.
ghost use Rattle.omega_hoa.specs.Laws.{AutomataAreOne, AutomataAreUnrefused, AutomataFillSegments};
ghost use Rattle.omega_hoa.specs.Laws.{AutomataOrRefused, CutsChangeNothing, PiecesAreFed};
ghost use Rattle.omega_hoa.specs.Laws.{PiecesChangeNothing, RefusalsAreOne, StreamFaultsAreOne};
ghost use Rattle.omega_hoa.specs.Laws.{StreamsAreOne, StreamsAreUnrefused, StreamsOrRefused};

use omega_hoa_automaton::{meanings_are_one, meanings_are_there};
use omega_hoa_syntax::raws_are_one;
use omega_text::laws::{cut_or_fault, cuts_are_one, cuts_have_no_fault, faults_are_one};
use omega_text::{HoaKind, TokenKind};

/// States that a text is that of at most one automaton.
pub fn automata_are_one()
    ensures { AutomataAreOne }
{
    cuts_are_one::<HoaKind>();
    raws_are_one();
    meanings_are_one();
}

/// States that a text that is not that of one automaton has at most one refusal.
pub fn refusals_are_one()
    ensures { RefusalsAreOne }
{
    cuts_are_one::<HoaKind>();
    faults_are_one::<HoaKind>();
    cuts_have_no_fault::<HoaKind>();
    raws_are_one();
    meanings_are_one();
}

/// States that the text of an automaton has no refusal.
pub fn automata_are_unrefused()
    ensures { AutomataAreUnrefused }
{
    cuts_are_one::<HoaKind>();
    cuts_have_no_fault::<HoaKind>();
    raws_are_one();
    meanings_are_one();
}

/// States that no text is neither that of an automaton nor refused.
pub fn automata_or_refused()
    ensures { AutomataOrRefused }
{
    cut_or_fault::<HoaKind>();
    meanings_are_there();
}

/// States that a text is a stream with at most one list of items.
pub fn streams_are_one()
    ensures { StreamsAreOne }
{
    cuts_are_one::<HoaKind>();
    raws_are_one();
    meanings_are_one();
}

/// States that a text that is no stream is refused after at most one list of items, and has at most one refusal.
pub fn stream_faults_are_one()
    ensures { StreamFaultsAreOne }
{
    HoaKind::goes_on_one_way();
    raws_are_one();
    meanings_are_one();
}

/// States that a stream has no refusal.
pub fn streams_are_unrefused()
    ensures { StreamsAreUnrefused }
{
    HoaKind::goes_on_one_way();
    raws_are_one();
    meanings_are_one();
}

/// States that no text is neither a stream nor refused.
pub fn streams_or_refused()
    ensures { StreamsOrRefused }
{
    HoaKind::goes_on_one_way();
    cut_or_fault::<HoaKind>();
    meanings_are_there();
}

/// States that the pieces in which a text within the limit is fed to a `Stream` change nothing. Its items are the same,
/// and so is the answer at its end: nothing, or the same refusal.
///
/// This holds of streams that are known to be fed with the same bytes (`fed`), and of every two lists of pieces with
/// the same bytes (`pieces`), since feeding pieces one after the other feeds their bytes (`together`).
pub fn pieces_change_nothing()
    ensures fed { CutsChangeNothing }
    ensures together { PiecesAreFed }
    ensures pieces { PiecesChangeNothing }
{
    HoaKind::goes_on_one_way();
    cuts_are_one::<HoaKind>();
    raws_are_one();
    meanings_are_one();
}

/// States that an automaton at the front of the tokens of a text fills a whole segment: only the last of its tokens
/// ends one.
pub fn automata_fill_segments()
    ensures { AutomataFillSegments }
{}
