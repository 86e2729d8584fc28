//! The intersection of an automaton with those of conjuncts, one after the other.

ghost use Rattle.std.specs.Prelude.{◌≡◌, ◌<◌, false, IfErr, IfOk, length};
ghost use Rattle.std.specs.List.{AllByRecursion};
ghost use Rattle.omega_hoa_automaton.specs.Branching.{has_universal_branching};
ghost use Rattle.omega_ltl_formula.specs.Formula.{FormulaTree};
ghost use Rattle.omega_ltl_satisfaction.specs.Refusing.{IsMeetingRefusal};
ghost use Rattle.omega_ltl_satisfaction.specs.private.Conjuncts.{AreSome};
ghost use Rattle.omega_ltl_satisfaction.specs.private.Meeting.{IsMeeting};

use crate::conjunct::Conjunct;
use crate::conjunct_automaton::conjunct_automaton;
use crate::first_example::first_answer;
use omega_hoa_automaton::{Automaton, Refusal};
use omega_lang_intersection::{Intersection, intersection};
use omega_lang_product::product;
use omega_ltl_formula::Formula;
use std::alloc::Global;

/// Returns whether `one` accepts a word that satisfies each of `conjuncts`, which are of nodes of `formula`. If so,
/// returns such words, and an accepting lasso of `one` along which it accepts them.
///
/// Fails with [TaskFault::TooLarge] or [TaskFault::TooManyPropositions] as `translate` does for a conjunct, or as
/// `product` or `intersection` do for an automaton so far and that of the next conjunct. Recurses as deep as there are
/// conjuncts.
pub(crate) fn common_words(
    alloc: Global,
    one: &Automaton,
    formula: &Formula,
    conjuncts: &[Conjunct],
) -> Result<Intersection, Refusal>
    requires some { 0 < length conjuncts.now }
    requires within { AllByRecursion (λ conjunct. conjunct.node < length formula.now.table.nodes)
        conjuncts.now }
    requires plain { has_universal_branching one.now ≡ false }
    ensures right { IfOk result (IsMeeting one.now formula.now conjuncts.now) }
    ensures refused { IfErr result (λ refusal. (whole : FormulaTree)
        → AreSome formula.now.table whole conjuncts.now → IsMeetingRefusal one.now whole refusal) }
{
    one.keeps_limits();
    let part = conjunct_automaton(alloc, formula, conjuncts[0])?;
    part.keeps_limits();
    if conjuncts.len() == 1 {
        return intersection(alloc, one, &part);
    }
    let both = product(alloc, one, &part)?;
    let answer = common_words(alloc, &both, formula, &conjuncts[1..])?;
    first_answer(alloc, one, &part, answer)
}
