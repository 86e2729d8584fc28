//! Words that an automaton accepts and that satisfy a formula.

ghost use Rattle.std.specs.Prelude.{◌≡◌, false, IfErr, IfOk, OnOk};
ghost use Rattle.omega_hoa_automaton.specs.Branching.{has_universal_branching};
ghost use Rattle.omega_ltl_satisfaction.specs.Refusing.{IsSatisfyingWordsRefusal};
ghost use Rattle.omega_ltl_satisfaction.specs.SatisfyingWords.{AreSatisfyingWords};

use crate::words::words_of;
use omega_hoa_automaton::{Automaton, Refusal};
use omega_lang_intersection::Intersection;
use omega_ltl_formula::Formula;
use std::alloc::Global;

/// Returns whether `automaton` accepts a word that satisfies `formula`. If so, returns such words, and an accepting
/// lasso of `automaton` along which it accepts them. A proposition of `automaton` and one of `formula` that have one
/// name are the same (HOA v1, AP).
///
/// This is what `satisfies` asks of the negation of `formula`, which is not made: a `formula` at its limits is not
/// refused for a negation more. If `formula` is a conjunction at its top, it is met conjunct by conjunct, from left to
/// right, if there are at most 64 of them. Refusals and time are those of `satisfies`, for the conjuncts of `formula`.
pub fn satisfying_words(
    alloc: Global,
    automaton: &Automaton,
    formula: &Formula,
) -> Result<Intersection, Refusal>
    ensures right { IfOk result (AreSatisfyingWords automaton.now formula.now) }
    ensures plain { OnOk result (has_universal_branching automaton.now ≡ false) }
    ensures refused { IfErr result (IsSatisfyingWordsRefusal automaton.now formula.now) }
{
    words_of(alloc, automaton, formula, false)
}
