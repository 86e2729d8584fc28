ghost use Rattle.std.specs.Prelude.{◌≡◌};
ghost use Rattle.omega.specs.Circuits.{form_asked};

use omega_answers_circuit::CircuitForm;

/// Returns the form of a circuit that a number asks for: with 0 the ASCII form, else the binary one.
pub(crate) fn form_asked(number: u8) -> CircuitForm
    ensures { result ≡ form_asked number }
{
    if number == 0 {
        CircuitForm::Ascii
    } else {
        CircuitForm::Binary
    }
}
