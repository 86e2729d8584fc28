//! Automata of which each set has to recur: those that are Büchi or generalized Büchi, and those without sets that
//! accept by each run.

ghost use Rattle.std.specs.Prelude.{◌+◌, ◌≤◌, ◌↔◌, IsTrue};
ghost use Rattle.omega_hoa_expression.specs.Limits.{most_buchi_sets};
ghost use Rattle.omega_lang_product.specs.Acceptance.{AreBuchi, IsBuchi};

use omega_hoa_acceptance::is_buchi;
use omega_hoa_automaton::Automaton;
use omega_hoa_expression::MOST_BUCHI_SETS;

/// Whether each set of both automata has to recur, and they are at most `MOST_BUCHI_SETS` together, as many as
/// emptiness by lifting takes. Requests no memory.
pub(crate) fn are_buchi(one: &Automaton, other: &Automaton) -> bool
    ensures { IsTrue result ↔ AreBuchi one.now other.now }
{
    are_few(one.set_count(), other.set_count()) && has_recurring(one) && has_recurring(other)
}

/// Whether two numbers of sets are at most `MOST_BUCHI_SETS` together.
fn are_few(sets: u32, others: u32) -> bool
    ensures { IsTrue result ↔ (sets + others ≤ most_buchi_sets) }
{
    sets <= MOST_BUCHI_SETS && others <= MOST_BUCHI_SETS - sets
}

/// Whether each set of `automaton` has to recur.
fn has_recurring(automaton: &Automaton) -> bool
    ensures { IsTrue result ↔ IsBuchi automaton.now }
{
    is_buchi(automaton.set_count(), automaton.acceptance())
}
