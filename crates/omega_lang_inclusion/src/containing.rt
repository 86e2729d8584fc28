//! Containment by the intersection with a complement.

ghost use Rattle.std.specs.Prelude.{IfErr, IfOk, OnOk};
ghost use Rattle.omega_hoa_automaton.specs.Automaton.{Description};
ghost use Rattle.omega_lang_inclusion.specs.Containing.{IsContainment};
ghost use Rattle.omega_lang_inclusion.specs.Refusing.{AreComparable, IsContainmentRefusal};
ghost use Rattle.omega_lang_inclusion.specs.private.Complemented.{IsComplemented};
ghost use Rattle.omega_lang_intersection.specs.Intersection.{IsIntersection};
ghost use Rattle.omega_lang_product.specs.Refusing.{HaveNoBranch};

use crate::containment::Containment;
use omega_hoa_automaton::{Automaton, Refusal};
use omega_lang_complement::complement;
use omega_lang_intersection::{Intersection, intersection};
use std::alloc::Global;

/// Returns whether `other` accepts each word that `one` accepts. If not, returns words that `one` accepts and `other`
/// does not, and an accepting lasso of `one` along which it accepts them. Propositions that have one name are the same,
/// whatever their numbers are (HOA v1, AP).
///
/// `other` is to be deterministic. This is the intersection of `one` with the complement of `other`.
///
/// Refusals, the first of these steps that has one:
///
/// - Those of `complement` for `other`, such as [TaskFault::NotDeterministic] with the number of a state.
/// - Those of `intersection` for `one` and the complement: [TaskFault::UniversalBranch] if a start or an edge of `one`
///   lists several states, [TaskFault::TooManyPropositions] and [TaskFault::TooLarge].
///
/// Takes the time of `complement` and `intersection`.
pub fn decide_containment(
    alloc: Global,
    one: &Automaton,
    other: &Automaton,
) -> Result<Containment, Refusal>
    ensures right { IfOk result (IsContainment one.now other.now) }
    ensures given { OnOk result (AreComparable one.now other.now) }
    ensures refused { IfErr result (IsContainmentRefusal one.now other.now) }
{
    other.keeps_limits();
    match complement(alloc, other) {
        Ok(rest) => contained_beside(alloc, one, &rest),
        Err(refusal) => Err(refusal),
    }
}

/// Returns what [decide_containment] returns for `one` and each automaton of which `rest` is the complement.
fn contained_beside(
    alloc: Global,
    one: &Automaton,
    rest: &Automaton,
) -> Result<Containment, Refusal>
    ensures right { IfOk result (λ answer. (other : Description) →
        IsComplemented other rest.now → IsContainment one.now other answer) }
    ensures given { OnOk result (HaveNoBranch one.now rest.now) }
    ensures refused { IfErr result (λ refusal. (other : Description) →
        IsComplemented other rest.now → IsContainmentRefusal one.now other refusal) }
{
    match intersection(alloc, one, rest) {
        Ok(answer) => Ok(containment_of(answer)),
        Err(refusal) => Err(refusal),
    }
}

/// Returns what the intersection of an automaton with the complement of another says of the two.
fn containment_of(answer: Intersection) -> Containment
    ensures { (one other rest : Description) → IsComplemented other rest
        → IsIntersection one rest answer → IsContainment one other result }
{
    match answer {
        Intersection::Empty => Containment::Contained,
        Intersection::Common(example) => Containment::NotContained(example),
    }
}
