ghost use Rattle.omega_answers_circuit.specs.Canon.{IsCircuitCanonAnswer, IsCircuitCanonRefusal};
ghost use Rattle.omega_answers_circuit.specs.WriteAutomaton.{IsCircuitAutomatonAnswer};
ghost use Rattle.omega_answers_circuit.specs.WriteAutomaton.{IsCircuitAutomatonRefusal};
ghost use Rattle.omega.specs.Circuits.{form_asked};
ghost use Rattle.omega.specs.Giving.{IsOneRefused, IsTextOutcome};

use crate::circuit_form::form_asked;
use crate::giving::give;
use crate::text::Text;
use crate::text_outcome::TextOutcome;
use omega_answers_circuit::{canon_circuit, write_circuit_automaton};
use std::alloc::Global;

/// Gives the canonical text of the circuit of `text`: in the ASCII form of AIGER, or, with `binary` not 0, in the
/// binary one.
///
/// The number of the outcome is 0, or that of the [Refusal::Text] or [Refusal::Circuit] of the text,
/// [TextFault::TooLong] if the text that would be given has over 16,777,216 bytes, or [Refusal::Memory]. Unless it is
/// 0, `out` stays.
#[unsafe(no_mangle)]
pub extern "C" fn omega_circuit(
    alloc: Global,
    text: &[u8],
    binary: u8,
    out: &mut Text,
) -> TextOutcome
    ensures { IsTextOutcome (IsCircuitCanonAnswer (form_asked binary) text.now)
        (IsOneRefused (IsCircuitCanonRefusal (form_asked binary) text.now)) result out.old out.new }
{
    match canon_circuit(alloc, text, form_asked(binary)) {
        Ok(output) => give(alloc, output, out),
        Err(refusal) => TextOutcome::of_one(refusal),
    }
}

/// Gives the canonical text of an automaton that accepts exactly the words of the circuit of `text`. It is
/// deterministic, with one edge for each letter of the inputs in each state.
///
/// The number of the outcome is 0, or that of the [Refusal::Text] or [Refusal::Circuit] of the text,
/// [AutomatonFault::Proposition] or [CircuitFault::Name] for its names, [TaskFault::TooLarge] or [Refusal::Memory].
/// Unless it is 0, `out` stays.
#[unsafe(no_mangle)]
pub extern "C" fn omega_circuit_automaton(alloc: Global, text: &[u8], out: &mut Text) -> TextOutcome
    ensures { IsTextOutcome (IsCircuitAutomatonAnswer text.now)
        (IsOneRefused (IsCircuitAutomatonRefusal text.now)) result out.old out.new }
{
    match write_circuit_automaton(alloc, text) {
        Ok(output) => give(alloc, output, out),
        Err(refusal) => TextOutcome::of_one(refusal),
    }
}
