//! The complement of a deterministic automaton.

ghost use Rattle.std.specs.Prelude.{◌≡◌, false, IfErr, IfOk, OnOk};
ghost use Rattle.omega_hoa_automaton.specs.Branching.{has_universal_branching};
ghost use Rattle.omega_lang_complement.specs.Complement.{HasComplement, IsComplement};
ghost use Rattle.omega_lang_complement.specs.Refusing.{HasStart, IsUncomplemented};
ghost use Rattle.omega_lang_complement.specs.Written.{written_dual};
ghost use Rattle.omega_lang_complement.specs.private.Turned.{AreTurned};

use crate::acceptance::dual_acceptance;
use crate::forming::{automaton_of_raw, written_complement};
use crate::limits::exceeds_limits;
use crate::states::{ComplementBody, turned_states};
use omega_hoa_acceptance::RawAcc;
use omega_hoa_automaton::{Automaton, has_universal_branching};
use omega_hoa_edges::check_one_start;
use omega_text::{Refusal, TaskFault};
use std::alloc::Global;

/// Returns the complement of a deterministic automaton: over the same propositions it accepts exactly the words that
/// `automaton` does not (HOA v1, acceptance and semantics of labels).
///
/// States keep their numbers and names, and edges their order and targets. Labels and marks of states move to their
/// edges, and an edge without a label gets that of its valuation. The acceptance is the dual one. If a state lacks
/// letters, it gets a further edge for them to a further state, the sink. The sink loops at each letter and is in a set
/// of its own, after the others; the acceptance is then `dual | Inf(set)`. If there is no start, the sink is the start.
///
/// Refusals, the first of these steps that has one:
///
/// - [TaskFault::UniversalBranch] if a start or an edge lists several states.
/// - [TaskFault::TooLarge] if a limit would be passed by one state more, one edge more for each state, one set more, or
///   a written formula one deeper. The limits are `MOST_STATES`, `MOST_EDGES`, `MOST_NUMBER` and `MOST_DEPTH`.
/// - [TaskFault::NotDeterministic] with the state of the second start, if there are two.
/// - State by state, in the order of their numbers, one of the three refusals below.
/// - [TaskFault::TooLarge] if all labels together would pass their limit.
///
/// The refusals of a state:
///
/// - [TaskFault::NotDeterministic] with its number, if two of its edges can be taken at one letter.
/// - [TaskFault::TooManyPropositions] if a label to be judged mentions over `MOST_MENTIONED` propositions and
///   `is_satisfiable` gave it up.
/// - [TaskFault::TooLarge] if a label is deeper than `MOST_DEPTH` or has over `MOST_SIZE` atoms and operators. Labels
///   to be judged count as they are, and labels to be written with the parentheses that they need.
///
/// So the complement is within the limits of automata that are read. Only its text may be longer than `MOST_TEXT`.
///
/// Judges each two edges of a state together, but for many conjunctions of literals over the first twelve propositions,
/// which are added up, and the letters that all of them leave out. A state with an edge for each valuation needs no
/// judging.
pub fn complement(alloc: Global, automaton: &Automaton) -> Result<Automaton, Refusal>
    ensures complement { IfOk result (IsComplement automaton.now) }
    ensures given { OnOk result (HasComplement automaton.now) }
    ensures refused { IfErr result (IsUncomplemented automaton.now) }
{
    if has_universal_branching(automaton) {
        return Err(Refusal::Task(TaskFault::UniversalBranch));
    }
    match dual_acceptance(alloc, automaton) {
        Ok(dual) => complement_with(alloc, automaton, dual),
        Err(refusal) => Err(refusal),
    }
}

/// Returns the complement of an automaton without universal branching, whose dual acceptance is `dual`. Fails as
/// [`complement`] does.
fn complement_with(alloc: Global, automaton: &Automaton, dual: RawAcc) -> Result<Automaton, Refusal>
    requires plain { has_universal_branching automaton.now ≡ false }
    requires dual { dual ≡ written_dual automaton.now }
    ensures complement { IfOk result (IsComplement automaton.now) }
    ensures given { OnOk result (HasComplement automaton.now) }
    ensures refused { IfErr result (IsUncomplemented automaton.now) }
{
    match complement_body(alloc, automaton, &dual) {
        Ok(body) => complement_of(alloc, automaton, dual, body),
        Err(refusal) => Err(refusal),
    }
}

/// Returns the states of the complement, if there is room for it and at most one start. Fails as [`complement`] does.
fn complement_body(
    alloc: Global,
    automaton: &Automaton,
    dual: &RawAcc,
) -> Result<ComplementBody, Refusal>
    requires plain { has_universal_branching automaton.now ≡ false }
    requires dual { dual.now ≡ written_dual automaton.now }
    ensures start { OnOk result (HasStart automaton.now) }
    ensures turned { IfOk result
        (λ body. AreTurned automaton.now automaton.now.states body.states.items body.lacks) }
    ensures refused { IfErr result (IsUncomplemented automaton.now) }
{
    if exceeds_limits(automaton, dual) {
        return Err(Refusal::Task(TaskFault::TooLarge));
    }
    check_one_start(automaton)?;
    let body = turned_states(alloc, automaton)?;
    Ok(body)
}

/// Returns the complement, from the dual acceptance and the states. Fails with [TaskFault::TooLarge] if all labels
/// together pass their limit.
fn complement_of(
    alloc: Global,
    automaton: &Automaton,
    dual: RawAcc,
    body: ComplementBody,
) -> Result<Automaton, Refusal>
    requires start { HasStart automaton.now }
    requires dual { dual ≡ written_dual automaton.now }
    requires turned { AreTurned automaton.now automaton.now.states body.states.items body.lacks }
    ensures complement { IfOk result (IsComplement automaton.now) }
    ensures given { OnOk result (HasComplement automaton.now) }
    ensures refused { IfErr result (IsUncomplemented automaton.now) }
{
    match written_complement(alloc, automaton, dual, body) {
        Ok(raw) => automaton_of_raw(alloc, raw),
        Err(refusal) => Err(refusal),
    }
}
