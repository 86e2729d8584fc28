//! The names that a formula and an automaton do not share.

ghost use Rattle.std.specs.Prelude.{◌≡◌, IfOk, IsOkUnless};
ghost use Rattle.omega_ltl_satisfaction.specs.Names.{unmentioned_names as names_not_mentioned};

use omega_hoa_automaton::{Automaton, Refusal};
use omega_lang_product::joined_names;
use omega_ltl_formula::Formula;
use omega_text::ByteString;
use std::alloc::Global;

/// Returns the names of `formula` that no proposition of `automaton` has, in the order of `formula`. The words that
/// `automaton` accepts leave each of them open at every index, so a misspelt name is one of them.
///
/// Fails for want of memory alone. Takes the time of comparing each two names.
pub fn unmentioned_names(
    alloc: Global,
    formula: &Formula,
    automaton: &Automaton,
) -> Result<Vec<ByteString>, Refusal>
    ensures names { IfOk result
        (λ names. names.items ≡ names_not_mentioned formula.now automaton.now) }
    ensures memory { IsOkUnless result Refusal.Memory }
{
    let known = automaton.propositions();
    let mut joined = joined_names(alloc, known, formula.names())?;
    let others = joined.split_off(known.len())?;
    Ok(others)
}
