//! Membership of some of the words that a symbolic word admits, by the intersection with the automaton of the word.

ghost use Rattle.std.specs.Prelude.{◌≡◌, false, IfErr, IfOk, OnOk};
ghost use Rattle.omega_hoa_automaton.specs.Branching.{has_universal_branching};
ghost use Rattle.omega_lang_inclusion.specs.SomeWord.{IsSomeMembership, IsSomeRefusal};

use crate::making::word_automaton;
use omega_hoa_automaton::{Automaton, Refusal};
use omega_lang_intersection::{Intersection, intersection};
use omega_lang_lasso_word::SymbolicWord;
use std::alloc::Global;

/// Returns whether `automaton` accepts some word that `word` admits. If it does, returns words that `word` admits and
/// `automaton` accepts, and an accepting lasso of `automaton` along which it accepts them. Propositions that have one
/// name are the same, whatever their numbers are (HOA v1, AP).
///
/// `automaton` may have choices and any acceptance. If no word is admitted, as by the letter `a & !a`, the answer is
/// [Intersection::Empty].
///
/// Fails with [TaskFault::TooLarge] as [word_automaton] does, or else as `intersection` does for `automaton` and the
/// automaton of `word`: with [TaskFault::UniversalBranch] if a start or an edge of `automaton` lists several states,
/// with [TaskFault::TooManyPropositions] or with [TaskFault::TooLarge]. Takes the time of these calls.
pub fn accepts_some(
    alloc: Global,
    word: SymbolicWord,
    automaton: &Automaton,
) -> Result<Intersection, Refusal>
    ensures right { IfOk result (IsSomeMembership word automaton.now) }
    ensures plain { OnOk result (has_universal_branching automaton.now ≡ false) }
    ensures refused { IfErr result (IsSomeRefusal word automaton.now) }
{
    match word_automaton(alloc, word) {
        Ok(one) => intersection(alloc, automaton, &one),
        Err(refusal) => Err(refusal),
    }
}
