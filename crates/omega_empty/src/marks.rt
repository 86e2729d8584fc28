ghost use Rattle.std.specs.Prelude.{◌≡◌, ◌++◌, ◌<◌, ◌≤◌, All};
ghost use Rattle.omega_hoa_parity_kind.specs.Priority.{priority_of};
ghost use Rattle.omega_hoa_acceptance.specs.Acceptance.{holds};
ghost use Rattle.omega_hoa_expression.specs.Limits.{most_depth};
ghost use Rattle.omega_text.specs.Limits.{most_number};
ghost use Rattle.omega_empty.specs.Counters.{counter_after, counters, priority_at_counter};
ghost use Rattle.omega_empty.specs.private.layout.Marks.{AreMarksBelow, IsSmall};

use omega_hoa_acceptance::{AccKind, ParityKind, priority};
use omega_hoa_automaton::{EdgeRef, State};

/// Returns the priority of `edge`, which leaves `state`, at `counter`.
pub(crate) fn edge_priority(kind: AccKind, counter: u32, state: &State, edge: &EdgeRef<'_>) -> u32
    requires counter { counter < counters kind }
    requires small { IsSmall kind }
    requires own { AreMarksBelow kind state.now.marks }
    requires marks { AreMarksBelow kind edge.now.marks }
    ensures value { result ≡ priority_at_counter kind counter (state.now.marks ++ edge.now.marks) }
    ensures writable { result ≤ most_number }
{
    match kind {
        AccKind::Parity(kind) => parity_priority(kind, state, edge),
        AccKind::GenBuchi(sets) => {
            if is_held(counter, state, edge) && counter + 1 == sets {
                2
            } else {
                1
            }
        }
    }
}

/// Returns the counter after `edge`, which leaves `state`, at `counter`.
pub(crate) fn counter_after(kind: AccKind, counter: u32, state: &State, edge: &EdgeRef<'_>) -> u32
    requires { counter < counters kind }
    ensures value { result ≡ counter_after kind counter (state.now.marks ++ edge.now.marks) }
    ensures below { result < counters kind }
{
    match kind {
        AccKind::Parity(_) => counter,
        AccKind::GenBuchi(sets) => {
            if !is_held(counter, state, edge) {
                counter
            } else if counter + 1 == sets {
                0
            } else {
                counter + 1
            }
        }
    }
}

/// Whether `set` is among the marks of `edge` or of its `state`.
#[tactic(auto, using(crate::proofs::making::MarkLists::holds_on))]
fn is_held(set: u32, state: &State, edge: &EdgeRef<'_>) -> bool
    ensures { result ≡ holds set (state.now.marks ++ edge.now.marks) }
{
    let own = holds(set, state.marks.as_slice());
    let other = holds(set, edge.marks());
    own || other
}

/// Whether `set` is among `marks`.
fn holds(set: u32, marks: &[u32]) -> bool
    ensures { result ≡ holds set marks.now }
{
    marks.iter().any(|mark| *mark == set)
}

/// Returns the priority of `edge` for a parity kind: the greater one of its marks' and of its `state`'s.
#[tactic(auto, using(crate::proofs::making::MarkLists::of_joined, crate::proofs::making::MarkLists::bounded))]
fn parity_priority(kind: ParityKind, state: &State, edge: &EdgeRef<'_>) -> u32
    requires small { kind.count ≤ most_depth }
    requires own { All (λ mark. mark < kind.count) state.now.marks }
    requires marks { All (λ mark. mark < kind.count) edge.now.marks }
    ensures value { result ≡ priority_of kind (state.now.marks ++ edge.now.marks) }
    ensures writable { result ≤ most_number }
{
    let own = priority(kind, state.marks.as_slice());
    let other = priority(kind, edge.marks());
    own.max(other)
}
