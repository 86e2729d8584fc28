//! Membership by containment of the automaton of a word, or else as one word.

ghost use Rattle.std.specs.Prelude.{◌≡◌, ◌≤◌, length, IfErr, IfNone, IfOk, IfSome, IsOkUnless, OnOk};
ghost use Rattle.omega_hoa_automaton.specs.Automaton.{Description};
ghost use Rattle.omega_lang_inclusion.specs.Containing.{IsContainment};
ghost use Rattle.omega_lang_lasso_word.specs.declared.symbolic_word.SymbolicWord.{SymbolicWord};
ghost use Rattle.omega_lang_inclusion.specs.Membership.{IsDecided, IsMembership};
ghost use Rattle.omega_lang_inclusion.specs.Refusing.{IsContainmentRefusal};
ghost use Rattle.omega_lang_inclusion.specs.WordRefusing.{HasChoice, HasNoFoundChoice};
ghost use Rattle.omega_lang_inclusion.specs.WordRefusing.{IsMembershipRefusal, IsNoChoice};
ghost use Rattle.omega_lang_inclusion.specs.Written.{IsWordAutomaton};
ghost use Rattle.omega_lang_inclusion.specs.private.Choosing.{choice_in};

use crate::making::word_automaton;
use crate::membership::Membership;
use crate::one_word::membership_of_one;
use crate::{Containment, decide_containment};
use omega_hoa_automaton::{Automaton, Refusal};
use omega_hoa_edges::{check_deterministic_states, check_one_start};
use omega_lang_lasso_word::SymbolicWord;
use omega_text::TaskFault;
use std::alloc::Global;

/// Returns whether `automaton` accepts each word that `word` admits. If not, returns words that `word` admits and
/// `automaton` does not accept. Propositions that have one name are the same, whatever their numbers are
/// (HOA v1, AP).
///
/// `automaton` is to be deterministic, or each letter of `word` is to fix each of its propositions, so that it sees one
/// word at most. If no word is admitted, as by the letter `a & !a`, the answer is [Membership::Accepted].
///
/// Fails with [TaskFault::TooLarge] as [word_automaton] does. Or else fails as `contained` of `omega_lang_inclusion`
/// does for the automaton of `word` in `automaton`. In place of [TaskFault::NotDeterministic], with which this fails
/// for a state of `automaton`, and of [TaskFault::TooLarge] if `automaton` has such a state or two starts, the letters
/// of `word` are judged:
///
/// - Fails with [TaskFault::TooLarge] or [TaskFault::TooManyPropositions] if a letter is not judged together with a
///   proposition of `automaton`, as `can_hold_together` of `omega_hoa_edges` does.
/// - Fails with [TaskFault::NotDeterministic] for that state if a letter leaves a proposition of `automaton` open.
/// - Or else fails as `pair_graph` does for the two automata, or with [TaskFault::TooManyPropositions] if it is
///   undecided whether a letter can be true.
///
/// Takes the time of these calls, and to judge the letters two calls of `can_hold_together` for each letter and each
/// proposition of `automaton`.
pub fn accepts(
    alloc: Global,
    word: SymbolicWord,
    automaton: &Automaton,
) -> Result<Membership, Refusal>
    ensures right { IfOk result (IsMembership word automaton.now) }
    ensures decided { OnOk result (IsDecided word automaton.now) }
    ensures refused { IfErr result (IsMembershipRefusal word automaton.now) }
{
    match word_automaton(alloc, word) {
        Ok(one) => membership(alloc, &one, automaton),
        Err(refusal) => Err(refusal),
    }
}

/// Returns whether `automaton` accepts each word that `one` does, the automaton of a symbolic word. Fails as [accepts]
/// does.
fn membership(alloc: Global, one: &Automaton, automaton: &Automaton) -> Result<Membership, Refusal>
    ensures right { IfOk result (λ answer. (word : SymbolicWord) →
        IsWordAutomaton word one.now → IsMembership word automaton.now answer) }
    ensures decided { OnOk result
        ((word : SymbolicWord) → IsWordAutomaton word one.now → IsDecided word automaton.now) }
    ensures refused { IfErr result (λ refusal. (word : SymbolicWord) →
        IsWordAutomaton word one.now → IsMembershipRefusal word automaton.now refusal) }
{
    match decide_containment(alloc, one, automaton) {
        Ok(answer) => Ok(membership_of(answer)),
        Err(refusal) => membership_refused(alloc, one, automaton, refusal),
    }
}

/// Returns whether `automaton` accepts each word that `one` does, the automaton of a symbolic word, of which
/// containment was refused with `refusal`: asks for one word if that is for a choice, or for a size and there is a
/// choice. Fails as [accepts] does.
fn membership_refused(
    alloc: Global,
    one: &Automaton,
    automaton: &Automaton,
    refusal: Refusal,
) -> Result<Membership, Refusal>
    requires { IsContainmentRefusal one.now automaton.now refusal }
    ensures right { IfOk result (λ answer. (word : SymbolicWord) →
        IsWordAutomaton word one.now → IsMembership word automaton.now answer) }
    ensures decided { OnOk result
        ((word : SymbolicWord) → IsWordAutomaton word one.now → IsDecided word automaton.now) }
    ensures refused { IfErr result (λ refusal. (word : SymbolicWord) →
        IsWordAutomaton word one.now → IsMembershipRefusal word automaton.now refusal) }
{
    match refused_choice(alloc, automaton, &refusal)? {
        None => Err(refusal),
        Some(state) => membership_of_one(alloc, one, automaton, state),
    }
}

/// Returns the state of a choice of `automaton`: that for which containment was refused, or one that is found where it
/// was refused with [TaskFault::TooLarge].
fn refused_choice(
    alloc: Global,
    automaton: &Automaton,
    refusal: &Refusal,
) -> Result<Option<usize>, Refusal>
    requires { (one : Description) × IsContainmentRefusal one automaton.now refusal.now }
    ensures some { IfOk result (λ found. IfSome found (HasChoice automaton.now)) }
    ensures none { IfOk result (λ found. IfNone found (IsNoChoice refusal.now)) }
    ensures searched { IfOk result (λ found. IfNone found
        (refusal.now ≡ Refusal.Task TaskFault.TooLarge → HasNoFoundChoice automaton.now)) }
    ensures memory { IsOkUnless result Refusal.Memory }
{
    match choice_in(refusal) {
        Some(state) => Ok(Some(state)),
        None => choice_for_size(alloc, automaton, refusal),
    }
}

/// Returns the state of a choice of `automaton`, if `refusal` is [TaskFault::TooLarge] and a choice is found.
fn choice_for_size(
    alloc: Global,
    automaton: &Automaton,
    refusal: &Refusal,
) -> Result<Option<usize>, Refusal>
    ensures some { IfOk result (λ found. IfSome found (HasChoice automaton.now)) }
    ensures searched { IfOk result (λ found. IfNone found
        (refusal.now ≡ Refusal.Task TaskFault.TooLarge → HasNoFoundChoice automaton.now)) }
    ensures memory { IsOkUnless result Refusal.Memory }
{
    match refusal {
        Refusal::Task(TaskFault::TooLarge) => found_choice(alloc, automaton),
        _ => Ok(None),
    }
}

/// Returns the state of a choice of `automaton`, if one is found: that of a second start, or else the first state of
/// which two edges can be taken at one letter, if no state before it is refused to be judged.
fn found_choice(alloc: Global, automaton: &Automaton) -> Result<Option<usize>, Refusal>
    ensures some { IfOk result (λ found. IfSome found (HasChoice automaton.now)) }
    ensures none { IfOk result (λ found. IfNone found (HasNoFoundChoice automaton.now)) }
    ensures memory { IsOkUnless result Refusal.Memory }
{
    match check_one_start(automaton) {
        Ok(()) => clash_found(alloc, automaton),
        Err(refusal) => Ok(choice_in(&refusal)),
    }
}

/// Returns the first state of which two edges can be taken at one letter, if none before it is refused to be judged.
fn clash_found(alloc: Global, automaton: &Automaton) -> Result<Option<usize>, Refusal>
    requires { length automaton.now.starts ≤ 1 }
    ensures some { IfOk result (λ found. IfSome found (HasChoice automaton.now)) }
    ensures none { IfOk result (λ found. IfNone found (HasNoFoundChoice automaton.now)) }
    ensures memory { IsOkUnless result Refusal.Memory }
{
    match check_deterministic_states(alloc, automaton) {
        Ok(()) => Ok(None),
        Err(Refusal::Memory) => Err(Refusal::Memory),
        Err(refusal) => Ok(choice_in(&refusal)),
    }
}

/// Returns the state that a refusal for a choice names.
fn choice_in(refusal: &Refusal) -> Option<usize>
    ensures { result ≡ choice_in refusal.now }
{
    match refusal {
        Refusal::Task(TaskFault::NotDeterministic(state)) => Some(*state),
        _ => None,
    }
}

/// Returns what containment of the automaton of a symbolic word in another automaton says of the two.
fn membership_of(answer: Containment) -> Membership
    ensures { (word : SymbolicWord) (one automaton : Description) → IsWordAutomaton word one
        → IsContainment one automaton answer → IsMembership word automaton result }
{
    match answer {
        Containment::Contained => Membership::Accepted,
        Containment::NotContained(example) => Membership::Rejected(example.word),
    }
}
