ghost use Rattle.std.specs.Prelude.{◌≡◌, IfOk, IsOkUnless};
ghost use Rattle.omega_answers_circuit.specs.Circuit.{circuit_text};
ghost use Rattle.omega_text.specs.declared.refusal.Refusal.{Refusal};

use crate::circuit_form::CircuitForm;
use omega_aiger::{aag_text, aig_text};
use omega_circuit::Circuit;
use omega_text::Refusal;
use std::alloc::Global;

/// Returns the text of a circuit in this form, in linear time. In the binary form it says the circuit if that is in
/// canonical form.
pub(crate) fn circuit_text(
    alloc: Global,
    circuit: &Circuit,
    form: CircuitForm,
) -> Result<Vec<u8>, Refusal>
    ensures text { IfOk result (λ text. text.items ≡ circuit_text form circuit.now) }
    ensures memory { IsOkUnless result Refusal.Memory }
{
    match form {
        CircuitForm::Ascii => aag_text(alloc, circuit),
        CircuitForm::Binary => aig_text(alloc, circuit),
    }
}
