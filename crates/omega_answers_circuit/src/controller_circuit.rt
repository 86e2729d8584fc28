//! The circuit of a controller that was found, as a text.

ghost use Rattle.std.specs.Prelude.{◌≡◌, IfErr, IfOk};
ghost use Rattle.omega_text.specs.Cases.{or_memory};
ghost use Rattle.omega_answers_circuit.specs.ControllerCircuit.{IsCircuitTextOver, IsNoneOver};
ghost use Rattle.omega_circuit_encoder.specs.Refusing.{IsEncodingRefusal};

use crate::circuit_form::CircuitForm;
use crate::circuit_text::circuit_text;
use crate::own_refusals::unread_for_size;
use omega_aiger::laws::{binary_circuits_are_read, written_circuits_are_read};
use omega_circuit::{Circuit, canonical_circuit};
use omega_circuit_encoder::circuit_of_controller;
use omega_hoa::read_one;
use omega_hoa_automaton::{Automaton, Refusal};
use omega_text::{ByteString, MOST_TEXT, TaskFault};
use std::alloc::Global;

/// Returns the automaton of the text of a controller that was found, whose propositions are to have these names.
///
/// Fails with [TaskFault::TooLarge] if the text or its labels are too large. Else fails with [TaskFault::Unjudged] if
/// it is not read, or if its propositions have other names.
pub(crate) fn controller_over(
    alloc: Global,
    names: &[ByteString],
    text: &[u8],
) -> Result<Automaton, Refusal>
    ensures names { IfOk result (λ controller. controller.propositions ≡ names.now) }
    ensures refused { IfErr result (or_memory (IsNoneOver names.now text.now)) }
{
    match read_one(alloc, text) {
        Ok(controller) => {
            if controller.propositions() == names {
                return Ok(controller);
            }
            Err(Refusal::Task(TaskFault::Unjudged))
        }
        Err(refusal) => Err(unread_for_size(refusal)),
    }
}

/// Returns the text in `form` of a circuit of `controller`, where the system controls the propositions with the numbers
/// `controlled`. What the circuit does is not judged here.
///
/// Fails as `circuit_of_controller` does, or else with [TaskFault::TooLarge] if the text would be too long.
pub(crate) fn circuit_text_over(
    alloc: Global,
    controller: &Automaton,
    controlled: &[u32],
    form: CircuitForm,
) -> Result<Vec<u8>, Refusal>
    ensures written { IfOk result
        (λ text. IsCircuitTextOver form controller.now.propositions controlled.now text.items) }
    ensures refused { IfErr result (IsEncodingRefusal controller.now.propositions) }
{
    written_circuits_are_read();
    binary_circuits_are_read();
    let circuit = circuit_of_controller(alloc, controller, controlled)?;
    controller.keeps_limits();
    let canonical = canonical_circuit(alloc, &circuit)?;
    canonical.is_circuit();
    let text = circuit_text(alloc, &canonical, form)?;
    if text.len() > MOST_TEXT {
        return Err(Refusal::Task(TaskFault::TooLarge));
    }
    Ok(text)
}
