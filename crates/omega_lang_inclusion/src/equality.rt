//! Equality of languages by containment both ways.

ghost use Rattle.std.specs.Prelude.{IfErr, IfOk, OnOk};
ghost use Rattle.omega_hoa_automaton.specs.Automaton.{Description};
ghost use Rattle.omega_lang_inclusion.specs.Containing.{IsContainment};
ghost use Rattle.omega_lang_inclusion.specs.Equality.{AreEquatable, IsEquality, IsEqualityRefusal};

use crate::containing::decide_containment;
use crate::containment::Containment;
use omega_hoa_automaton::{Automaton, Refusal};
use omega_lang_intersection::Example;
use std::alloc::Global;

/// Whether two automata accept the same words.
#[derive(Debug, Drop, PartialEq, Eq)]
pub enum Equality {
    /// They accept the same words.
    Equal,
    /// The first accepts a word that the second does not accept, which this counterexample shows.
    OnlyFirst(Example),
    /// The first accepts no other words than the second, but the second accepts a word that the first does not accept,
    /// which this counterexample shows.
    OnlySecond(Example),
}

/// Returns whether two automata, which are to be deterministic, accept the same words. If not, returns a counterexample
/// of the automaton that accepts more: of `first` if both accept words that the other does not.
///
/// Fails with the refusal of `contained` for `first` in `second`, or else with that for `second` in `first`. Both are
/// asked whatever the answer to the first is, so a refusal does not depend on it. Takes the time of both.
pub fn decide_equality(
    alloc: Global,
    first: &Automaton,
    second: &Automaton,
) -> Result<Equality, Refusal>
    ensures right { IfOk result (IsEquality first.now second.now) }
    ensures given { OnOk result (AreEquatable first.now second.now) }
    ensures refused { IfErr result (IsEqualityRefusal first.now second.now) }
{
    let there = decide_containment(alloc, first, second)?;
    let back = decide_containment(alloc, second, first)?;
    Ok(equality_of(there, back))
}

/// Returns whether two automata accept the same words, given whether the first accepts only words of the second, and
/// whether the second accepts only words of the first.
pub fn equality_of(there: Containment, back: Containment) -> Equality
    ensures { (first second : Description) → IsContainment first second there
        → IsContainment second first back → IsEquality first second result }
{
    match there {
        Containment::NotContained(example) => Equality::OnlyFirst(example),
        Containment::Contained => match back {
            Containment::NotContained(example) => Equality::OnlySecond(example),
            Containment::Contained => Equality::Equal,
        },
    }
}
