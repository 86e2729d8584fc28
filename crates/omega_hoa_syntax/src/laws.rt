//! Laws of all tokens. The function does nothing and states one law.

ghost use Rattle.omega_hoa_syntax.specs.Laws.{RawsAreOne};

use omega_hoa_acceptance::formulas_are_one;
use omega_hoa_label_text::labels_are_one;

/// States that tokens begin with at most one automaton, after which one rest is left. So the tokens decide the answer
/// of `read_raw`, unless memory is refused.
pub fn raws_are_one()
    ensures { RawsAreOne }
{
    labels_are_one();
    formulas_are_one();
}
