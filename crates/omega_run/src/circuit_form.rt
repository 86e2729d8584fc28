ghost use Rattle.std.specs.Prelude.{◌≡◌};
ghost use Rattle.omega_run.specs.CircuitForms.{form_for};

use omega_answers_circuit::CircuitForm;

/// Returns the form in which a circuit is written: the binary one if that is asked for, else the ASCII one.
pub(crate) fn form_for(binary: bool) -> CircuitForm
    ensures { result ≡ form_for binary }
{
    if binary {
        CircuitForm::Binary
    } else {
        CircuitForm::Ascii
    }
}
