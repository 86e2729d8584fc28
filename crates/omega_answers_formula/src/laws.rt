//! Laws of the answers about formulas. Each function does nothing and states one law.
ghost use Rattle.omega_answers_formula.specs.Laws.{FormulaNamesAreStrings};

use omega_ltl_text::laws::names_are_quotable;

/// States that the names of the formula of a text are strings, so that what `no` explains holds without a condition on
/// the formula.
pub fn formula_names_are_strings()
    ensures { FormulaNamesAreStrings }
{
    names_are_quotable();
}
