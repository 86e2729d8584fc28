ghost use Rattle.std.specs.Prelude.{◌≡◌, ◌≤◌, ◌+◌, IfErr, IfOk, OnOk, length};
ghost use Rattle.omega_hoa_automaton.specs.Limits.{most_propositions};
ghost use Rattle.omega_hoa_automaton.specs.Automaton.{IsAutomaton};
ghost use Rattle.omega_hoa_automaton.specs.Meaning.{Means};
ghost use Rattle.omega_hoa_edges.specs.Determinism.{IsDeterministic};
ghost use Rattle.omega_circuit_automaton.specs.CircuitAutomaton.{AcceptsWordsOf, AnswersEachOnce};
ghost use Rattle.omega_circuit_automaton.specs.CircuitAutomaton.{HasCircuitHeader, HasValuations};
ghost use Rattle.omega_circuit_automaton.specs.Names.{AreFit, IsAutomatonRefusal, proposition_names};
ghost use Rattle.omega_circuit_automaton.specs.private.Written.{IsLarge, IsWrittenAutomaton};

use crate::exploring::explore;
use crate::header::header;
use crate::names::proposition_names;
use omega_acc::{written_formulas_mean, written_labels_mean};
use omega_circuit::Circuit;
use omega_hoa_automaton::{Automaton, RawAutomaton, automaton_of};
use omega_text::{ByteString, Refusal, Seq, TaskFault};
use std::alloc::Global;

/// Returns an automaton that accepts exactly the words of a circuit. It is deterministic, and each letter of the inputs
/// fits one edge of each state.
///
/// Its states are the valuations of the latches that are reached, breadth first from the resets. Each is named by the
/// values of the latches in order, or has no name if there are no latches. Its propositions are the names of the inputs
/// and then of the outputs, and the outputs are controllable (`controllable-AP:`). An edge's label is a conjunction of
/// literals: of some inputs in order, and of all outputs. The acceptance is `all`.
///
/// Refusals, in this order:
///
/// - [AutomatonFault::Proposition] if two inputs or outputs have one name, or they are over `MOST_PROPOSITIONS`.
/// - [CircuitFault::Name] if a name is no string of the Hanoi format: it has a quote without a backslash, or ends with
///   a backslash (HOA v1, tokens).
/// - [TaskFault::TooLarge] if there are over `MOST_STATES` states or `MOST_EDGES` edges, or labels pass their limits.
///
/// Takes time proportional to the edges and the greatest variable of the circuit, and memory by that variable. A state
/// has at most as many edges as there are letters of the inputs.
pub fn circuit_automaton(alloc: Global, circuit: &Circuit) -> Result<Automaton, Refusal>
    ensures words { IfOk result (AcceptsWordsOf circuit.now) }
    ensures answers { IfOk result (AnswersEachOnce circuit.now) }
    ensures deterministic { IfOk result IsDeterministic }
    ensures states { IfOk result (HasValuations circuit.now) }
    ensures header { IfOk result (HasCircuitHeader circuit.now) }
    ensures names { OnOk result (AreFit (proposition_names circuit.now)) }
    ensures refused { IfErr result (IsAutomatonRefusal circuit.now) }
{
    let names = proposition_names(alloc, circuit)?;
    named_automaton(alloc, circuit, names)
}

/// Returns the automaton of a circuit with these names of its propositions. Fails with [TaskFault::TooLarge].
fn named_automaton(
    alloc: Global,
    circuit: &Circuit,
    names: Vec<ByteString>,
) -> Result<Automaton, Refusal>
    requires names { names.items ≡ proposition_names circuit.now }
    requires few { length circuit.now.inputs + length circuit.now.outputs ≤ most_propositions }
    ensures words { IfOk result (AcceptsWordsOf circuit.now) }
    ensures answers { IfOk result (AnswersEachOnce circuit.now) }
    ensures deterministic { IfOk result IsDeterministic }
    ensures states { IfOk result (HasValuations circuit.now) }
    ensures header { IfOk result (HasCircuitHeader circuit.now) }
    ensures err { IfErr result IsLarge }
{
    circuit.is_circuit();
    written_labels_mean();
    written_formulas_mean();
    match written_automaton(alloc, circuit, names) {
        Ok(raw) => meaning_of(alloc, raw),
        Err(refusal) => Err(as_too_large(refusal)),
    }
}

/// Returns the automaton of a circuit as a text writes it.
fn written_automaton(
    alloc: Global,
    circuit: &Circuit,
    names: Vec<ByteString>,
) -> Result<RawAutomaton, Refusal>
    requires names { names.items ≡ proposition_names circuit.now }
    requires few { length circuit.now.inputs + length circuit.now.outputs ≤ most_propositions }
    ensures { IfOk result (IsWrittenAutomaton circuit.now (proposition_names circuit.now)) }
{
    let states = explore(alloc, circuit)?;
    let inputs = circuit.inputs().len();
    let outputs = circuit.outputs().len();
    let items = header(alloc, names, inputs, outputs, states.len())?;
    let version = ByteString::from_slice(alloc, b"v1")?;
    Ok(RawAutomaton {
        version,
        items: Seq::from_vec(items),
        states: Seq::from_vec(states),
    })
}

/// Returns what a written automaton means. Fails with [TaskFault::TooLarge] if it has a fault.
fn meaning_of(alloc: Global, raw: RawAutomaton) -> Result<Automaton, Refusal>
    ensures means { IfOk result (Means raw) }
    ensures limits { IfOk result IsAutomaton }
    ensures err { IfErr result IsLarge }
{
    match automaton_of(alloc, raw) {
        Ok(automaton) => {
            automaton.keeps_limits();
            Ok(automaton)
        }
        Err(refusal) => Err(as_too_large(refusal)),
    }
}

/// Returns [TaskFault::TooLarge] in place of any refusal but [Refusal::Memory]: the others are faults of automata.
fn as_too_large(refusal: Refusal) -> Refusal
    ensures { IsLarge result }
{
    match refusal {
        Refusal::Memory => Refusal::Memory,
        _ => Refusal::Task(TaskFault::TooLarge),
    }
}
