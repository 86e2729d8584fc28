//! Equality with a formula, by satisfaction and by the complement.

ghost use Rattle.std.specs.Prelude.{IfErr, IfOk};
ghost use Rattle.omega_hoa_automaton.specs.Automaton.{Description, IsAutomaton};
ghost use Rattle.omega_lang_complement.specs.Complement.{HasComplement, IsComplement};
ghost use Rattle.omega_ltl_formula.specs.Table.{NumberedFormula};
ghost use Rattle.omega_ltl_satisfaction.specs.Satisfaction.{IsSatisfaction};
ghost use Rattle.omega_ltl_satisfaction.specs.SatisfyingWords.{AreSatisfyingWords};
ghost use Rattle.omega_ltl_satisfaction.specs.declared.satisfaction.Satisfaction.TheVariants.{Satisfied};
ghost use Rattle.omega_ltl_equality.specs.Equality.{IsFormulaEquality, IsGivenFor};
ghost use Rattle.omega_ltl_equality.specs.Refusing.{IsFormulaEqualityRefusal};

use crate::formula_equality::FormulaEquality;
use omega_hoa_automaton::{Automaton, Refusal};
use omega_lang_complement::complement;
use omega_lang_intersection::Intersection;
use omega_ltl_formula::Formula;
use omega_ltl_satisfaction::{Satisfaction, satisfies, satisfying_words};
use std::alloc::Global;

/// Returns whether `automaton` accepts exactly the words that satisfy `formula`. If not, returns words that it accepts
/// and that do not satisfy `formula`, with an accepting lasso along which it accepts them, or else words that satisfy
/// `formula` and that it does not accept. A proposition of `automaton` and one of `formula` that have one name are the
/// same (HOA v1, AP).
///
/// First `satisfies` is asked of `automaton`, which may have choices then. Only if each word that it accepts satisfies
/// `formula` is it to be deterministic, and `satisfying_words` is asked of its complement. Of the two, the first meets
/// the conjuncts of the negation of `formula` one by one, and the second those of `formula`.
///
/// Refusals, the first of these steps that has one:
///
/// - Those of `satisfies` for `automaton`: [TaskFault::UniversalBranch], [TaskFault::TooManyPropositions] and
///   [TaskFault::TooLarge].
/// - Those of `complement` for `automaton`, such as [TaskFault::NotDeterministic] with the number of a state.
/// - Those of `satisfying_words` for the complement: [TaskFault::TooManyPropositions] and [TaskFault::TooLarge].
///
/// Takes the time of these calls.
pub fn decide_formula_equality(
    alloc: Global,
    automaton: &Automaton,
    formula: &Formula,
) -> Result<FormulaEquality, Refusal>
    ensures right { IfOk result (IsFormulaEquality automaton.now formula.now) }
    ensures given { IfOk result (IsGivenFor automaton.now) }
    ensures refused { IfErr result (IsFormulaEqualityRefusal automaton.now formula.now) }
{
    match satisfies(alloc, automaton, formula) {
        Ok(Satisfaction::Satisfied) => equality_of_satisfied(alloc, automaton, formula),
        Ok(Satisfaction::NotSatisfied(example)) => Ok(FormulaEquality::Excess(example)),
        Err(refusal) => Err(refusal),
    }
}

/// Returns what [decide_formula_equality] returns for `automaton`, each accepted word of which satisfies `formula`.
fn equality_of_satisfied(
    alloc: Global,
    automaton: &Automaton,
    formula: &Formula,
) -> Result<FormulaEquality, Refusal>
    requires { IsSatisfaction automaton.now formula.now Satisfied }
    ensures right { IfOk result (IsFormulaEquality automaton.now formula.now) }
    ensures given { IfOk result (IsGivenFor automaton.now) }
    ensures refused { IfErr result (IsFormulaEqualityRefusal automaton.now formula.now) }
{
    automaton.keeps_limits();
    match complement(alloc, automaton) {
        Ok(rest) => equality_beside(alloc, &rest, formula),
        Err(refusal) => Err(refusal),
    }
}

/// Returns what [equality_of_satisfied] returns for each automaton of which `rest` is the complement.
fn equality_beside(
    alloc: Global,
    rest: &Automaton,
    formula: &Formula,
) -> Result<FormulaEquality, Refusal>
    ensures right { IfOk result (λ answer. (a : Description) → IsAutomaton a → HasComplement a
        → IsComplement a rest.now → IsSatisfaction a formula.now Satisfied
        → IsFormulaEquality a formula.now answer) }
    ensures given { IfOk result (λ answer. (a : Description) → HasComplement a → IsGivenFor a answer) }
    ensures refused { IfErr result (λ refusal. (a : Description) → HasComplement a
        → IsComplement a rest.now → IsSatisfaction a formula.now Satisfied
        → IsFormulaEqualityRefusal a formula.now refusal) }
{
    match satisfying_words(alloc, rest, formula) {
        Ok(answer) => Ok(equality_of_missing(answer)),
        Err(refusal) => Err(refusal),
    }
}

/// Returns what the words that a complement accepts and that satisfy a formula say of the automaton and the formula.
fn equality_of_missing(missing: Intersection) -> FormulaEquality
    ensures right { (a rest : Description) (formula : NumberedFormula) → IsAutomaton a → HasComplement a
        → IsComplement a rest → IsSatisfaction a formula Satisfied → AreSatisfyingWords rest formula missing
        → IsFormulaEquality a formula result }
    ensures given { (a : Description) → HasComplement a → IsGivenFor a result }
{
    match missing {
        Intersection::Empty => FormulaEquality::Equal,
        Intersection::Common(example) => FormulaEquality::Missing(example.word),
    }
}
