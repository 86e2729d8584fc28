ghost use Rattle.std.specs.Prelude.{◌≡◌, ◌||◌, ◌+◌, ◌≤◌, ◌↔◌, IsTrue, length, map, IfErr, IfOk, OnOk};
ghost use Rattle.omega_text.specs.Limits.{most_number};
ghost use Rattle.omega_hoa_automaton.specs.Automaton.{edge_count};
ghost use Rattle.omega_hoa_automaton.specs.Branching.{has_universal_branching};
ghost use Rattle.omega_hoa_automaton.specs.Limits.{most_propositions};
ghost use Rattle.omega_hoa_automaton.specs.Meaning.{Means};
ghost use Rattle.omega_hoa_edges.specs.Fitting.{IsLarge};
ghost use Rattle.omega_hoa_edges.specs.Limits.{most_edges, most_states};
ghost use Rattle.omega_lang_product.specs.Joining.{joined_names as names_of_both};
ghost use Rattle.omega_lang_product.specs.Limits.{IsWithin};
ghost use Rattle.omega_lang_product.specs.Refusing.{HaveNoBranch};
ghost use Rattle.omega_lang_trim.specs.Written.{state_written, written as written_form};
ghost use Rattle.omega_lang_union.specs.Refusing.{IsOversized, IsUnionRefusal, IsUnionTooLarge};
ghost use Rattle.omega_lang_union.specs.Union.{IsUnion, united};
ghost use Rattle.omega_lang_union.specs.private.Operands.{AreLarge, IsDeepFormula};

use crate::header::header;
use crate::sets::sharing_of;
use crate::sharing::Sharing;
use crate::states::states_of;
use omega_acc::{written_formulas_mean, written_labels_mean};
use omega_hoa_automaton::{Automaton, MOST_PROPOSITIONS, has_universal_branching};
use omega_hoa_edges::{MOST_EDGES, MOST_STATES};
use omega_hoa_syntax::{RawAutomaton, RawState};
use omega_lang_product::joined_names;
use omega_lang_trim::{meaning, raw_automaton_of};
use omega_text::{ByteString, Refusal, TaskFault};
use std::alloc::Global;

/// Returns the union of two automata without universal branching. It accepts a word over the propositions of both
/// exactly if one of the two accepts its part of the word (law `unions_accept_either` of `omega_laws`).
///
/// Propositions are joined by name, with those of `first` in front. The states are those of `first`, and then those of
/// `second`, numbered on. They keep their names, labels, marks and edges, and the starts are those of both, so that the
/// union is not deterministic if both have one. An edge that had neither a label nor one of its state gets that of its
/// valuation. The name of the automaton, the tool, the properties and the headers that the format leaves open are left
/// out, as what they say may no longer hold.
///
/// If both have one acceptance formula over as many sets, it is that of the union, with its name. Otherwise the sets of
/// `second` are numbered after those of `first`, and the acceptance is the disjunction, without a name. A run of one
/// has no marks of the other. So if a formula holds of a run without any marks, it is guarded by one set more, which
/// each edge of its automaton is in: `Inf(0) | Inf(2)&Fin(1)` for Büchi and co-Büchi.
///
/// Refusals, with `UniversalBranch` before the other:
///
/// - [TaskFault::UniversalBranch] if a start or an edge lists several states.
/// - [TaskFault::TooLarge] if the union would have over `MOST_STATES` states or `MOST_EDGES` edges, or would break a
///   limit of automata. Those are `MOST_PROPOSITIONS` propositions, `MOST_NUMBER` sets, and the depth and size of
///   labels and of the acceptance.
///
/// Linear in both automata, and in the number of propositions for each name and for each edge without a label.
pub fn union(alloc: Global, first: &Automaton, second: &Automaton) -> Result<Automaton, Refusal>
    ensures union { IfOk result (IsUnion first.now second.now) }
    ensures written { IfOk result (λ union. Means (written_form union) union) }
    ensures within { IfOk result IsWithin }
    ensures given { OnOk result (HaveNoBranch first.now second.now) }
    ensures refused { IfErr result (IsUnionRefusal first.now second.now) }
{
    if branches(first, second) {
        return Err(Refusal::Task(TaskFault::UniversalBranch));
    }
    union_automaton(alloc, first, second)
}

/// Whether a start or an edge of either automaton lists several states.
fn branches(first: &Automaton, second: &Automaton) -> bool
    ensures { result ≡ (has_universal_branching first.now || has_universal_branching second.now) }
{
    let in_first = has_universal_branching(first);
    let in_second = has_universal_branching(second);
    in_first || in_second
}

/// Returns the union of two automata without universal branching. Fails with [TaskFault::TooLarge].
fn union_automaton(alloc: Global, one: &Automaton, other: &Automaton) -> Result<Automaton, Refusal>
    ensures union { IfOk result (IsUnion one.now other.now) }
    ensures written { IfOk result (λ union. Means (written_form union) union) }
    ensures within { IfOk result IsWithin }
    ensures err { IfErr result (IsLarge (IsUnionTooLarge one.now other.now)) }
{
    one.keeps_limits();
    other.keeps_limits();
    written_labels_mean();
    written_formulas_mean();
    let sharing = sharing_of(alloc, one, other)?;
    if are_large(one, other) {
        return Err(Refusal::Task(TaskFault::TooLarge));
    }
    match raw_union(alloc, &sharing, one, other) {
        Ok(raw) => meaning(alloc, raw),
        Err(refusal) => Err(refusal),
    }
}

/// Whether both automata together have over `MOST_STATES` states or over `MOST_EDGES` edges.
fn are_large(one: &Automaton, other: &Automaton) -> bool
    ensures { IsTrue result ↔ AreLarge one.now other.now }
{
    let states = one.state_count() as usize + other.state_count() as usize;
    let edges = one.edge_count() as usize + other.edge_count() as usize;
    MOST_STATES < states || MOST_EDGES < edges
}

/// Returns the union as a text writes it. Fails with [TaskFault::TooLarge] if there are too many propositions, or if
/// the acceptance or a label is deeper than `MOST_DEPTH` as it is written.
fn raw_union(
    alloc: Global,
    sharing: &Sharing,
    one: &Automaton,
    other: &Automaton,
) -> Result<RawAutomaton, Refusal>
    requires { one.now.states + other.now.states ≤ most_states }
    ensures written { IfOk result (λ raw. raw ≡ written_form (united sharing.now one.now other.now)) }
    ensures err { IfErr result (IsLarge (IsOversized (united sharing.now one.now other.now))) }
{
    match names_of(alloc, sharing, one, other) {
        Ok(names) => written_over(alloc, sharing, one, other, names),
        Err(refusal) => Err(refusal),
    }
}

/// Returns the union over the joined `names` as a text writes it. Fails with [TaskFault::TooLarge] if the acceptance or
/// a label is deeper than `MOST_DEPTH` as it is written.
fn written_over(
    alloc: Global,
    sharing: &Sharing,
    one: &Automaton,
    other: &Automaton,
    names: Vec<ByteString>,
) -> Result<RawAutomaton, Refusal>
    requires names { names.items ≡ names_of_both one.now.propositions other.now.propositions }
    requires few { length names.items ≤ most_propositions }
    requires states { one.now.states + other.now.states ≤ most_states }
    ensures written { IfOk result (λ raw. raw ≡ written_form (united sharing.now one.now other.now)) }
    ensures err { IfErr result (IsLarge (IsOversized (united sharing.now one.now other.now))) }
{
    match states_of(alloc, sharing, one, other, names.as_slice()) {
        Ok(states) => written_with(alloc, sharing, one, other, names, states),
        Err(refusal) => Err(refusal),
    }
}

/// Returns the union over the joined `names` as a text writes it, given its `states`. Fails with [TaskFault::TooLarge]
/// if the acceptance is deeper than `MOST_DEPTH` as it is written.
fn written_with(
    alloc: Global,
    sharing: &Sharing,
    one: &Automaton,
    other: &Automaton,
    names: Vec<ByteString>,
    states: Vec<RawState>,
) -> Result<RawAutomaton, Refusal>
    requires names { names.items ≡ names_of_both one.now.propositions other.now.propositions }
    requires few { length names.items ≤ most_propositions }
    requires states { one.now.states + other.now.states ≤ most_states }
    requires body { states.items ≡ map state_written (united sharing.now one.now other.now).defined }
    ensures written { IfOk result (λ raw. raw ≡ written_form (united sharing.now one.now other.now)) }
    ensures err { IfErr result
        (IsLarge (IsDeepFormula (united sharing.now one.now other.now).acceptance)) }
{
    match header(alloc, sharing, one, other, names) {
        Ok(items) => raw_automaton_of(alloc, items, states),
        Err(refusal) => Err(refusal),
    }
}

/// Returns the names of the propositions of both. Fails with [TaskFault::TooLarge] if they are too many.
fn names_of(
    alloc: Global,
    sharing: &Sharing,
    one: &Automaton,
    other: &Automaton,
) -> Result<Vec<ByteString>, Refusal>
    ensures ok { IfOk result
        (λ names. names.items ≡ names_of_both one.now.propositions other.now.propositions) }
    ensures few { IfOk result (λ names. length names.items ≤ most_propositions) }
    ensures err { IfErr result (IsLarge (IsOversized (united sharing.now one.now other.now))) }
{
    let names = joined_names(alloc, one.propositions(), other.propositions())?;
    if MOST_PROPOSITIONS < names.len() {
        return Err(Refusal::Task(TaskFault::TooLarge));
    }
    Ok(names)
}
