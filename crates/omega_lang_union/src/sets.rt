//! Which sets the edges of a union are in.

ghost use Rattle.std.specs.Prelude.{◌≡◌, ◌+◌, ◌<◌, ◌≤◌, ◌↔◌, IsTrue, not, length, IfErr, IfOk, IsOkUnless};
ghost use Rattle.omega_text.specs.Limits.{most_number};
ghost use Rattle.omega_hoa_edges.specs.Fitting.{IsLarge};
ghost use Rattle.omega_lang_union.specs.Sharing.{AreAlike, IsSharing, guard_of};
ghost use Rattle.omega_lang_union.specs.Sharing.{guard_sets, separate_sets, shared_sets};
ghost use Rattle.omega_lang_union.specs.private.Operands.{HaveManySets};

use crate::sharing::Sharing;
use omega_hoa_acceptance::{AtomJudge, equal_formulas_are_equal_trees};
use omega_hoa_automaton::Automaton;
use omega_text::{MOST_NUMBER, Refusal, TaskFault};
use std::alloc::Global;

/// Returns which sets the edges of the union are in. Fails with [TaskFault::TooLarge] if a text has no number for one
/// of them.
pub(crate) fn sharing_of(
    alloc: Global,
    one: &Automaton,
    other: &Automaton,
) -> Result<Sharing, Refusal>
    ensures sharing { IfOk result (IsSharing one.now other.now) }
    ensures few { IfOk result (λ sharing. sharing.sets ≤ most_number) }
    ensures err { IfErr result (IsLarge (HaveManySets one.now other.now)) }
{
    let sharing = all_sets(alloc, one, other)?;
    if MOST_NUMBER < sharing.sets {
        return Err(Refusal::Task(TaskFault::TooLarge));
    }
    Ok(sharing)
}

/// Returns which sets the edges of the union are in. Fails with [TaskFault::TooLarge] if a text has no number for one
/// of them; it may also return more sets than a text has numbers for.
fn all_sets(alloc: Global, one: &Automaton, other: &Automaton) -> Result<Sharing, Refusal>
    ensures sharing { IfOk result (IsSharing one.now other.now) }
    ensures err { IfErr result (IsLarge (HaveManySets one.now other.now)) }
{
    if are_alike(one, other) {
        return Ok(common_sharing(one));
    }
    separate_sharing(alloc, one, other)
}

/// Whether both automata have one acceptance formula over as many sets.
fn are_alike(one: &Automaton, other: &Automaton) -> bool
    ensures { IsTrue result ↔ AreAlike one.now other.now }
{
    equal_formulas_are_equal_trees();
    let same_count = one.set_count() == other.set_count();
    let same_formula = *one.acceptance() == *other.acceptance();
    same_count && same_formula
}

/// Returns the sets of `one`, which `other` uses too.
fn common_sharing(one: &Automaton) -> Sharing
    ensures { result ≡ shared_sets one.now }
{
    Sharing {
        shared: true,
        before: 0,
        first: None,
        second: None,
        sets: one.set_count(),
    }
}

/// Returns the sets of `one`, those of `other`, and the guards that they need. Fails with [TaskFault::TooLarge] if a
/// text has no number for one of the sets.
fn separate_sharing(alloc: Global, one: &Automaton, other: &Automaton) -> Result<Sharing, Refusal>
    ensures sharing { IfOk result (λ sharing. sharing ≡ separate_sets one.now other.now) }
    ensures err { IfErr result (IsLarge (most_number < (separate_sets one.now other.now).sets)) }
{
    let sets = sets_of_both(one, other)?;
    let first = guard(alloc, one, sets)?;
    let guards = after(sets, first);
    let second = guard(alloc, other, guards)?;
    Ok(Sharing {
        shared: false,
        before: one.set_count(),
        first,
        second,
        sets: after(guards, second),
    })
}

/// Returns the number of sets of both. Fails with [TaskFault::TooLarge] if a text has no number for it.
fn sets_of_both(one: &Automaton, other: &Automaton) -> Result<u32, Refusal>
    ensures ok { IfOk result (λ sets. sets ≡ one.now.sets + other.now.sets) }
    ensures within { IfOk result (λ sets. sets ≤ most_number) }
    ensures err { IfErr result (IsLarge (most_number < one.now.sets + other.now.sets)) }
{
    let first = one.set_count();
    let second = other.set_count();
    if MOST_NUMBER < first || MOST_NUMBER - first < second {
        return Err(Refusal::Task(TaskFault::TooLarge));
    }
    Ok(first + second)
}

/// Returns the guard that the acceptance of `automaton` needs, if it needs one: the set with this number.
#[tactic(auto, using(crate::proofs::Guards::unmarked_by_atoms))]
fn guard(alloc: Global, automaton: &Automaton, number: u32) -> Result<Option<u32>, Refusal>
    ensures guard { IfOk result (λ guard. guard ≡ guard_of number automaton.now.acceptance) }
    ensures memory { IsOkUnless result Refusal.Memory }
{
    let unmarked = automaton.acceptance().holds_by(alloc, &Unmarked {})?;
    if unmarked { Ok(Some(number)) } else { Ok(None) }
}

/// Returns how many sets there are with a `guard`, if there is one, after `sets` others.
fn after(sets: u32, guard: Option<u32>) -> u32
    requires { sets ≤ most_number + 1 }
    ensures { result ≡ sets + length (guard_sets guard) }
{
    match guard {
        Some(_) => sets + 1,
        None => sets,
    }
}

/// A run whose edges have no marks, as a judge of atoms.
#[derive(Clone, Copy)]
struct Unmarked {}

impl AtomJudge for Unmarked {
    ghost can_judge = { λ _. Unit {0} };

    ghost infs = { λ _ negated set. negated };

    ghost fins = { λ _ negated set. not negated };

    fn inf_holds(&self, negated: bool, _set: u32) -> bool {
        negated
    }

    fn fin_holds(&self, negated: bool, _set: u32) -> bool {
        !negated
    }
}
