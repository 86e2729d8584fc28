ghost use Rattle.std.specs.Prelude.{IfErr, IfOk};
ghost use Rattle.omega_text.specs.Cases.{or_memory};
ghost use Rattle.omega_circuit_automaton.specs.Names.{IsAutomatonRefusal};
ghost use Rattle.omega_answers_circuit.specs.WriteAutomaton.{IsAutomatonTextOf, IsCircuitAutomatonAnswer};
ghost use Rattle.omega_answers_circuit.specs.WriteAutomaton.{IsCircuitAutomatonRefusal};

use omega_aiger::read_aiger;
use omega_canon::canonical;
use omega_circuit::Circuit;
use omega_circuit_automaton::circuit_automaton;
use omega_text::Refusal;
use std::alloc::Global;

/// Returns the canonical text of an automaton that accepts exactly the words of the circuit of `text`, as
/// `circuit_automaton` makes it: deterministic, with one edge for each letter of the inputs in each state. The cost is
/// that of `circuit_automaton`, and linear in both texts.
///
/// Fails with the [Refusal::Text] or [Refusal::Circuit] of the text, or else with [AutomatonFault::Proposition],
/// [CircuitFault::Name] or [TaskFault::TooLarge], as `circuit_automaton` does.
pub fn write_circuit_automaton(alloc: Global, text: &[u8]) -> Result<Vec<u8>, Refusal>
    ensures answer { IfOk result (λ output. IsCircuitAutomatonAnswer text.now output.items) }
    ensures refused { IfErr result (or_memory (IsCircuitAutomatonRefusal text.now)) }
{
    let circuit = read_aiger(alloc, text)?;
    automaton_text(alloc, &circuit)
}

/// Returns the canonical text of the automaton of a circuit. Fails as `circuit_automaton` does.
fn automaton_text(alloc: Global, circuit: &Circuit) -> Result<Vec<u8>, Refusal>
    ensures text { IfOk result (λ output. IsAutomatonTextOf circuit.now output.items) }
    ensures refused { IfErr result (IsAutomatonRefusal circuit.now) }
{
    match circuit_automaton(alloc, circuit) {
        Ok(automaton) => canonical(alloc, &automaton),
        Err(refusal) => Err(refusal),
    }
}
