ghost use Rattle.std.specs.Prelude.{◌≡◌, IfErr, IfOk, IfSome, IsOkUnless};
ghost use Rattle.omega_ltl_determinization.specs.Deterministic.{IsWellFormed};
ghost use Rattle.omega_ltl_determinization.specs.Refusing.{IsLarge};

use omega_graph_search::number_of;
use omega_ltl_determinization::{
    DeterministicAutomaton, MOST_STATES, NondeterministicAutomaton, deterministic_automaton,
    smaller_automaton,
};
use omega_text::{Refusal, Seq, TaskFault};
use std::alloc::Global;

/// How many states the automaton of a negation may have in any case, before it is made smaller.
const FEW_STATES: u32 = 256;

/// How many times as many states as that of the part the automaton of a negation may have, before it is made smaller.
const MOST_TIMES: u32 = 8;

/// A part of a formula as a deterministic automaton.
#[derive(Debug)]
pub struct Leaf {
    /// The automaton.
    pub automaton: DeterministicAutomaton,
    /// For each name of its letters the number of that among the names of the whole.
    pub names: Seq<u32>,
    /// Whether the part holds of the words that the automaton does not accept, else of those that it accepts.
    pub is_negated: bool,
}

impl Drop for Leaf {
    fn drop(self) {
        let Leaf {
            automaton: _,
            names: _,
            is_negated: _,
        } = self;
    }
}

/// Returns a leaf: the smaller of the deterministic automata of a part of a formula and of its negation. The second is
/// given up where it would have many more states than the first. Fails with [`TaskFault::TooLarge`] if both are
/// refused.
pub fn leaf_of(
    alloc: Global,
    positive: &NondeterministicAutomaton,
    negative: &NondeterministicAutomaton,
    names: Vec<u32>,
) -> Result<Leaf, Refusal>
    ensures leaf { IfOk result (λ leaf. IsWellFormed leaf.automaton) }
    ensures names { IfOk result (λ leaf. leaf.names ≡ names.items) }
    ensures err { IfErr result IsLarge }
{
    let one = small_automaton_within(alloc, positive, number_of(MOST_STATES))?;
    let other = small_automaton_within(alloc, negative, most_states_beside(&one))?;
    let is_negated = is_smaller(&other, &one);
    match if is_negated { other } else { one } {
        Some(automaton) => Ok(Leaf {
            automaton,
            names: Seq::from_vec(names),
            is_negated,
        }),
        None => Err(Refusal::Task(TaskFault::TooLarge)),
    }
}

/// Returns how many states the automaton of the negation may have, before it is made smaller.
fn most_states_beside(one: &Option<DeterministicAutomaton>) -> u32 {
    match one {
        Some(one) => one.state_count().saturating_mul(MOST_TIMES).max(FEW_STATES),
        None => number_of(MOST_STATES),
    }
}

/// Whether there is the first of two automata, and it has fewer states than the second if there is that.
fn is_smaller(
    one: &Option<DeterministicAutomaton>,
    other: &Option<DeterministicAutomaton>,
) -> bool {
    match (one, other) {
        (Some(one), Some(other)) => one.state_count() < other.state_count(),
        (one, _) => one.is_some(),
    }
}

/// Returns a small deterministic automaton of an automaton, or none if it would have over `most` states before it is
/// made smaller, or is too large.
fn small_automaton_within(
    alloc: Global,
    automaton: &NondeterministicAutomaton,
    most: u32,
) -> Result<Option<DeterministicAutomaton>, Refusal>
    ensures automaton { IfOk result (λ found. IfSome found IsWellFormed) }
    ensures memory { IsOkUnless result Refusal.Memory }
{
    match small_automaton(alloc, automaton, most) {
        Ok(found) => Ok(Some(found)),
        Err(Refusal::Memory) => Err(Refusal::Memory),
        Err(_) => Ok(None),
    }
}

/// Returns a small deterministic automaton of an automaton. Fails with [`TaskFault::TooLarge`] if it would have over
/// `most` states before it is made smaller, or is too large.
fn small_automaton(
    alloc: Global,
    automaton: &NondeterministicAutomaton,
    most: u32,
) -> Result<DeterministicAutomaton, Refusal>
    ensures automaton { IfOk result IsWellFormed }
    ensures err { IfErr result IsLarge }
{
    smaller_automaton(alloc, deterministic_automaton(alloc, automaton, most)?)
}
