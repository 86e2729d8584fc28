ghost use Rattle.std.specs.Prelude.{◌≡◌};
ghost use Rattle.omega_circuit.specs.Limits.{most_variables};

/// The greatest variable that a circuit may have.
pub const MOST_VARIABLES: u32 = 16_777_216;

/// States the limit in numbers.
pub fn circuit_limits_are_stated()
    ensures { MOST_VARIABLES ≡ most_variables }
{}
