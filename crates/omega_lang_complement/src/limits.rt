//! Whether the complement would pass a limit, by the counts of the automaton.

ghost use Rattle.std.specs.Prelude.{◌≡◌, nat_le};
ghost use Rattle.omega_hoa_expression.specs.Limits.{most_depth};
ghost use Rattle.omega_hoa_acceptance.specs.Raw.{raw_acc_depth};
ghost use Rattle.omega_lang_complement.specs.Complement.{exceeds_limits};
ghost use Rattle.omega_lang_complement.specs.Written.{written_dual};

use omega_hoa_acceptance::RawAcc;
use omega_hoa_automaton::Automaton;
use omega_hoa_edges::{MOST_EDGES, MOST_STATES};
use omega_hoa_expression::MOST_DEPTH;
use omega_text::MOST_NUMBER;

/// Whether one state more, one edge more for each state, one set more, or a written formula one deeper would pass a
/// limit. `formula` is the written dual acceptance.
pub(crate) fn exceeds_limits(automaton: &Automaton, formula: &RawAcc) -> bool
    requires { formula.now ≡ written_dual automaton.now }
    ensures { result ≡ exceeds_limits automaton.now }
{
    let states = automaton.state_count() as usize;
    let edges = automaton.edge_count() as usize + states;
    if MOST_STATES <= states {
        return true;
    }
    if MOST_EDGES <= edges {
        return true;
    }
    if MOST_NUMBER <= automaton.set_count() {
        return true;
    }
    is_deepest(formula)
}

/// Whether `formula` has the greatest depth allowed.
fn is_deepest(formula: &RawAcc) -> bool
    ensures { result ≡ nat_le most_depth (raw_acc_depth formula.now) }
{
    MOST_DEPTH <= formula.depth()
}
