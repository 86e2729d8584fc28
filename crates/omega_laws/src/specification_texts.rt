//! Laws of what `realize` and `verify --specification` answer, in words of the automata that texts describe: each call
//! does nothing and states one law.

ghost use Rattle.omega_laws.specs.SpecificationTexts.{ControllerTextsAreJudged, CounterTextsAreJudged};
ghost use Rattle.omega_laws.specs.SpecificationTexts.{RealizedTextsAreExact, WinnersOfTextsAreExact};

use omega_answers_synth::{
    controller_answers_are_exact, counter_answers_are_exact, realize_answers_are_exact,
    winner_answers_are_exact,
};
use omega_hoa_syntax::raws_are_one;
use omega_text::HoaKind;
use omega_text::laws::cuts_are_one;

/// Shows that `realize` answers `realizable` exactly if some strategy of the system realizes the automaton that the
/// text describes, and `unrealizable` exactly if some strategy of the environment beats it. It has the premise of the
/// limited principle of omniscience.
pub fn realized_texts_are_exact()
    ensures { RealizedTextsAreExact }
{
    cuts_are_one::<HoaKind>();
    raws_are_one();
    realize_answers_are_exact();
}

/// Shows that the exit of `realize --controller` says the same, with the same premise.
pub fn winners_of_texts_are_exact()
    ensures { WinnersOfTextsAreExact }
{
    cuts_are_one::<HoaKind>();
    raws_are_one();
    winner_answers_are_exact();
}

/// Shows that `verify --specification` answers `yes` exactly if the automaton that the one text describes is a
/// controller for that of the other, with the same premise.
pub fn controller_texts_are_judged()
    ensures { ControllerTextsAreJudged }
{
    cuts_are_one::<HoaKind>();
    raws_are_one();
    controller_answers_are_exact();
}

/// Shows that `verify --specification --counter-strategy` answers `yes` exactly if the automaton that the one text
/// describes is a counter-strategy for that of the other, without a premise.
pub fn counter_texts_are_judged()
    ensures { CounterTextsAreJudged }
{
    cuts_are_one::<HoaKind>();
    raws_are_one();
    counter_answers_are_exact();
}
