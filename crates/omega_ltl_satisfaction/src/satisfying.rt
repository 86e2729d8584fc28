//! Satisfaction by the words that an automaton accepts and that satisfy the negation of a formula.

ghost use Rattle.std.specs.Prelude.{◌≡◌, false, IfErr, IfOk, OnOk};
ghost use Rattle.omega_hoa_automaton.specs.Automaton.{Description};
ghost use Rattle.omega_hoa_automaton.specs.Branching.{has_universal_branching};
ghost use Rattle.omega_ltl_formula.specs.Formula.{unary};
ghost use Rattle.omega_ltl_formula.specs.Table.{NumberedFormula, tree_of};
ghost use Rattle.omega_ltl_formula.specs.declared.operators.UnaryOperator.TheVariants.{Not};
ghost use Rattle.omega_ltl_satisfaction.specs.Refusing.{IsSatisfactionRefusal};
ghost use Rattle.omega_ltl_satisfaction.specs.Satisfaction.{IsSatisfaction};
ghost use Rattle.omega_ltl_satisfaction.specs.SatisfyingWords.{AreWordsOf};

use crate::satisfaction::Satisfaction;
use crate::words::words_of;
use omega_hoa_automaton::{Automaton, Refusal};
use omega_lang_intersection::Intersection;
use omega_ltl_formula::Formula;
use std::alloc::Global;

/// Returns whether each word that `automaton` accepts satisfies `formula`. If not, returns words that `automaton`
/// accepts and that do not satisfy it, and an accepting lasso of `automaton` along which it accepts them. A proposition
/// of `automaton` and one of `formula` that have one name are the same (HOA v1, AP).
///
/// `automaton` may have choices and any acceptance. This is the intersection with the automaton of the negation of
/// `formula` (Vardi and Wolper 1986). If the negation is a conjunction at its top, as that of `f -> g` or `f | g`, it
/// is met conjunct by conjunct, from left to right, if there are at most 64 of them. All but the last are met by
/// `product`, and the last by `intersection`.
///
/// Refusals, the first of these steps that has one, the last two conjunct by conjunct:
///
/// - [TaskFault::UniversalBranch] if a start or an edge of `automaton` lists several states, and only then.
/// - [TaskFault::TooLarge] if the automaton of the conjunct passes a limit of `translate`.
/// - Those of the product of the automaton so far with that of the conjunct: [TaskFault::TooManyPropositions] and
///   [TaskFault::TooLarge]. Of the last conjunct they are those of `intersection`, which has no labels to refuse.
///
/// If one of the last two comes where there are several conjuncts, the negation itself is met as the only one, and what
/// comes of it is the refusal.
///
/// Takes the time of these calls, and if there is a counterexample, that of `pair_graph` for each product.
pub fn satisfies(
    alloc: Global,
    automaton: &Automaton,
    formula: &Formula,
) -> Result<Satisfaction, Refusal>
    ensures right { IfOk result (IsSatisfaction automaton.now formula.now) }
    ensures plain { OnOk result (has_universal_branching automaton.now ≡ false) }
    ensures refused { IfErr result (IsSatisfactionRefusal automaton.now formula.now) }
{
    match words_of(alloc, automaton, formula, true) {
        Ok(answer) => Ok(satisfaction_of(answer)),
        Err(refusal) => Err(refusal),
    }
}

/// Returns what the words that an automaton accepts and that satisfy the negation of a formula say of the two.
fn satisfaction_of(answer: Intersection) -> Satisfaction
    ensures { (automaton : Description) (formula : NumberedFormula)
        → AreWordsOf automaton formula (unary Not (tree_of formula)) answer
        → IsSatisfaction automaton formula result }
{
    match answer {
        Intersection::Empty => Satisfaction::Satisfied,
        Intersection::Common(example) => Satisfaction::NotSatisfied(example),
    }
}
