//! Membership of one word in an automaton with choices: whether the automaton of the word and this one accept a common
//! word.

ghost use Rattle.std.specs.Prelude.{◌≡◌, ◌↔◌, IfErr, IfOk, IsOkUnless, IsTrue, OnOk};
ghost use Rattle.omega_hoa_automaton.specs.Automaton.{Description, IsAutomaton};
ghost use Rattle.omega_lang_lasso_search.specs.Searching.{IsSearchRefusal, IsSearchable};
ghost use Rattle.omega_lang_product.specs.Refusing.{HaveNoBranch};
ghost use Rattle.omega_lang_runs.specs.Lasso.{IsAcceptingLasso};
ghost use Rattle.omega_lang_runs.specs.Verdict.{IsVerdict};
ghost use Rattle.omega_lang_lasso_word.specs.declared.symbolic_word.SymbolicWord.{SymbolicWord};
ghost use Rattle.omega_lang_inclusion.specs.Membership.{IsDecided, IsMembership};
ghost use Rattle.omega_lang_inclusion.specs.OneWord.{IsOneWordFor};
ghost use Rattle.omega_lang_inclusion.specs.WordRefusing.{HasChoice, IsMembershipRefusal, IsOneWordRefusal};
ghost use Rattle.omega_lang_inclusion.specs.Written.{IsWordAutomaton};
ghost use Rattle.omega_lang_inclusion.specs.private.Choosing.{AcceptCommon, is_common};

use crate::lasso_words::words_along;
use crate::membership::Membership;
use crate::open_letters::has_open_name;
use omega_hoa_automaton::{Automaton, Refusal};
use omega_lang_intersection::{Intersection, intersection};
use omega_lang_lasso_search::lasso;
use omega_lang_runs::Verdict;
use omega_text::TaskFault;
use std::alloc::Global;

/// Returns whether `automaton`, which has a choice at `state`, accepts each word that `one` does, the automaton of a
/// symbolic word. Fails as `accepts` does for such an automaton.
pub(crate) fn membership_of_one(
    alloc: Global,
    one: &Automaton,
    automaton: &Automaton,
    state: usize,
) -> Result<Membership, Refusal>
    requires { HasChoice automaton.now state }
    ensures right { IfOk result (λ answer. (word : SymbolicWord) →
        IsWordAutomaton word one.now → IsMembership word automaton.now answer) }
    ensures decided { OnOk result
        ((word : SymbolicWord) → IsWordAutomaton word one.now → IsDecided word automaton.now) }
    ensures refused { IfErr result (λ refusal. (word : SymbolicWord) →
        IsWordAutomaton word one.now → IsMembershipRefusal word automaton.now refusal) }
{
    one.keeps_limits();
    automaton.keeps_limits();
    if has_open_name(alloc, one, automaton.propositions())? {
        return Err(Refusal::Task(TaskFault::NotDeterministic(state)));
    }
    membership_of_word(alloc, one, automaton)
}

/// Returns whether `automaton` accepts each word that `one` does, the automaton of a symbolic word of which it sees one
/// word at most. Fails as `pair_graph` does for both, or else with [TaskFault::TooManyPropositions] if it is undecided
/// whether a letter can be true.
fn membership_of_word(
    alloc: Global,
    one: &Automaton,
    automaton: &Automaton,
) -> Result<Membership, Refusal>
    ensures right { IfOk result (λ answer. (word : SymbolicWord) → IsWordAutomaton word one.now
        → IsOneWordFor word automaton.now → IsMembership word automaton.now answer) }
    ensures refused { IfErr result (IsOneWordRefusal one.now automaton.now) }
{
    automaton.keeps_limits();
    if meets(alloc, one, automaton)? {
        Ok(Membership::Accepted)
    } else {
        membership_of_rejected(alloc, one)
    }
}

/// Whether some word is accepted by both automata. Fails as `pair_graph` does.
fn meets(alloc: Global, one: &Automaton, automaton: &Automaton) -> Result<bool, Refusal>
    ensures right { IfOk result (λ found. IsTrue found ↔ AcceptCommon one.now automaton.now) }
    ensures plain { OnOk result (HaveNoBranch one.now automaton.now) }
    ensures refused { IfErr result (IsOneWordRefusal one.now automaton.now) }
{
    match intersection(alloc, one, automaton) {
        Ok(answer) => Ok(is_common(&answer)),
        Err(refusal) => Err(refusal),
    }
}

/// Whether an answer is words that both automata accept.
fn is_common(answer: &Intersection) -> bool
    ensures { result ≡ is_common answer.now }
{
    match answer {
        Intersection::Empty => false,
        Intersection::Common(_example) => true,
    }
}

/// Returns the answer for `one`, the automaton of a symbolic word, of which another automaton accepts no word: words
/// that it accepts, if there are some. Fails as `lasso` does for `one`.
fn membership_of_rejected(alloc: Global, one: &Automaton) -> Result<Membership, Refusal>
    ensures right { IfOk result (λ answer. (word : SymbolicWord) (a : Description) →
        IsWordAutomaton word one.now → ¬ AcceptCommon one.now a → IsMembership word a answer) }
    ensures refused { IfErr result (IsSearchRefusal one.now) }
{
    one.keeps_limits();
    let verdict = lasso(alloc, one)?;
    membership_of_verdict(alloc, one, &verdict)
}

/// Returns the answer that a verdict on `one` gives, as [membership_of_rejected] does.
fn membership_of_verdict(
    alloc: Global,
    one: &Automaton,
    verdict: &Verdict,
) -> Result<Membership, Refusal>
    requires automaton { IsAutomaton one.now }
    requires searchable { IsSearchable one.now }
    requires verdict { IsVerdict one.now verdict.now }
    ensures right { IfOk result (λ answer. (word : SymbolicWord) (a : Description) →
        IsWordAutomaton word one.now → ¬ AcceptCommon one.now a → IsMembership word a answer) }
    ensures memory { IsOkUnless result Refusal.Memory }
{
    match verdict {
        Verdict::Empty => Ok(Membership::Accepted),
        Verdict::Lasso { stem, cycle } => {
            rejected_along(alloc, one, stem.as_slice(), cycle.as_slice())
        }
    }
}

/// Returns the words along an accepting lasso of `one` as the answer.
fn rejected_along(
    alloc: Global,
    one: &Automaton,
    stem: &[u32],
    cycle: &[u32],
) -> Result<Membership, Refusal>
    requires automaton { IsAutomaton one.now }
    requires searchable { IsSearchable one.now }
    requires lasso { IsAcceptingLasso one.now stem.now cycle.now }
    ensures right { IfOk result (λ answer. (word : SymbolicWord) (a : Description) →
        IsWordAutomaton word one.now → ¬ AcceptCommon one.now a → IsMembership word a answer) }
    ensures memory { IsOkUnless result Refusal.Memory }
{
    let words = words_along(alloc, one, stem, cycle)?;
    Ok(Membership::Rejected(words))
}
