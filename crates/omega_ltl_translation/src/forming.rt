//! The automaton of a graph, by way of what a text writes of it.

ghost use Rattle.std.specs.Prelude.{◌≡◌, ◌≤◌, ◌<◌, Some, length, sum_by, IfErr, IfOk, IsOkUnless};
ghost use Rattle.omega_text.specs.declared.refusal.automaton.AutomatonFault.TheVariants.{Expansion};
ghost use Rattle.omega_hoa_automaton.specs.Faults.{automaton_fault_of};
ghost use Rattle.omega_hoa_automaton.specs.Meaning.{IsMeaningless, Means};
ghost use Rattle.omega_hoa_syntax.specs.declared.raw_automaton.RawAutomaton.{RawAutomaton};
ghost use Rattle.omega_ltl_terms.specs.Adding.{IsLargeBy};
ghost use Rattle.omega_ltl_translation.specs.Limits.{most_labelled_edges, most_states};
ghost use Rattle.omega_ltl_translation.specs.Translation.{HasHeader, IsGeneralizedBuchi, given_name};
ghost use Rattle.omega_ltl_translation.specs.private.Automata.{IsAutomatonOf};
ghost use Rattle.omega_ltl_translation.specs.private.Written.{IsWrittenGraph};

use crate::graph::GraphEdge;
use crate::header::header;
use crate::states::states_of;
use omega_acc::{written_formulas_mean, written_labels_mean};
use omega_hoa_automaton::{Automaton, RawAutomaton, automaton_of, faults_are_least};
use omega_text::{AutomatonFault, ByteString, Refusal, Seq, TaskFault};
use std::alloc::Global;

/// Returns the automaton with these edges of its states, a name, if it is not empty, and propositions. It begins in
/// state 0, and an edge is in each of `sets` sets in which it is not late. Fails with [TaskFault::TooLarge] if labels
/// together have over 16,777,216 nodes.
pub(crate) fn automaton_of_graph(
    alloc: Global,
    name: &[u8],
    propositions: &[ByteString],
    edges: &[Seq<GraphEdge>],
    sets: u32,
) -> Result<Automaton, Refusal>
    requires propositions { length propositions.now ≤ 64 }
    requires states { length edges.now ≤ most_states }
    requires sets { sets ≤ 64 }
    ensures graph { IfOk result (IsAutomatonOf propositions.now sets (length edges.now) edges.now) }
    ensures buchi { IfOk result IsGeneralizedBuchi }
    ensures header { IfOk result (HasHeader (given_name name.now) propositions.now) }
    ensures refused { IfErr result (IsLargeBy (most_labelled_edges < sum_by length edges.now)) }
{
    written_labels_mean();
    written_formulas_mean();
    faults_are_least();
    let raw = written_graph(alloc, name, propositions, edges, sets)?;
    meaning_of(alloc, raw)
}

/// Returns what a written automaton means. Fails with [TaskFault::TooLarge] if its labels have too many nodes.
fn meaning_of(alloc: Global, raw: RawAutomaton) -> Result<Automaton, Refusal>
    ensures means { IfOk result (Means raw) }
    ensures refused { IfErr result (IsLargeBy (automaton_fault_of raw ≡ Some Expansion)) }
{
    match automaton_of(alloc, raw) {
        Ok(automaton) => Ok(automaton),
        Err(refusal) => Err(limit_of(refusal)),
    }
}

/// Returns the automaton as a text writes it.
fn written_graph(
    alloc: Global,
    name: &[u8],
    propositions: &[ByteString],
    edges: &[Seq<GraphEdge>],
    sets: u32,
) -> Result<RawAutomaton, Refusal>
    requires propositions { length propositions.now ≤ 64 }
    requires states { length edges.now ≤ most_states }
    requires sets { sets ≤ 64 }
    ensures written { IfOk result
        (IsWrittenGraph (given_name name.now) propositions.now sets edges.now) }
    ensures memory { IsOkUnless result Refusal.Memory }
{
    let version = ByteString::from_slice(alloc, b"v1")?;
    let items = header(alloc, name, propositions, edges.len() as u32, sets)?;
    let states = states_of(alloc, edges, sets)?;
    Ok(RawAutomaton {
        version,
        items: Seq::from_vec(items),
        states: Seq::from_vec(states),
    })
}

/// Returns [TaskFault::TooLarge] in place of [AutomatonFault::Expansion]. An automaton that is formed here has no other
/// fault, so all else is [Refusal::Memory].
fn limit_of(refusal: Refusal) -> Refusal
    ensures { (raw : RawAutomaton) → IsMeaningless raw refusal
        → IsLargeBy (automaton_fault_of raw ≡ Some Expansion) result }
{
    match refusal {
        Refusal::Automaton(AutomatonFault::Expansion) => Refusal::Task(TaskFault::TooLarge),
        _ => Refusal::Memory,
    }
}
