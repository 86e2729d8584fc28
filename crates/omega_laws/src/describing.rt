//! Laws of the automata that texts describe: each call does nothing and states one law.

ghost use Rattle.omega_laws.specs.Describes.{AutomataAreDescribed, DescribedAreAlike};

use omega_hoa_syntax::raws_are_one;
use omega_text::HoaKind;
use omega_text::laws::cuts_are_one;

/// Shows that the text of an automaton describes it, so that something is said of each automaton that was read.
pub fn automata_are_described()
    ensures { AutomataAreDescribed }
{}

/// Shows that automata that one text describes have the same propositions and accept the same words, so that it is all
/// one which of them is meant.
pub fn described_automata_are_alike()
    ensures { DescribedAreAlike }
{
    cuts_are_one::<HoaKind>();
    raws_are_one();
}
