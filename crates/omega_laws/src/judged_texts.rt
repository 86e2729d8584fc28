//! Laws of what `verify -f` answers, in words of the automata that texts describe: each call does nothing and states
//! one law.

ghost use Rattle.omega_laws.specs.JudgedTexts.{FormulaControllersAreJudged};
ghost use Rattle.omega_laws.specs.JudgedTexts.{FormulaCounterStrategiesAreJudged};

use omega_hoa_syntax::raws_are_one;
use omega_ltl_text::laws::formulas_of_texts_are_one;
use omega_synth_formula::{formula_counter_judgements_are_exact, formula_judgements_are_exact};
use omega_text::HoaKind;
use omega_text::laws::cuts_are_one;

/// Shows that `verify -f` answers `yes` exactly if the automaton that the one text describes is a controller for the
/// formula of the other, where the system controls its propositions that are outputs. It has the premise of the limited
/// principle of omniscience.
pub fn formula_controllers_are_judged()
    ensures { FormulaControllersAreJudged }
{
    cuts_are_one::<HoaKind>();
    raws_are_one();
    formulas_of_texts_are_one();
    formula_judgements_are_exact();
}

/// Shows that `verify -f --counter-strategy` answers `yes` exactly if the automaton that the one text describes is a
/// counter-strategy for the formula of the other, with the same premise.
pub fn formula_counter_strategies_are_judged()
    ensures { FormulaCounterStrategiesAreJudged }
{
    cuts_are_one::<HoaKind>();
    raws_are_one();
    formulas_of_texts_are_one();
    formula_counter_judgements_are_exact();
}
