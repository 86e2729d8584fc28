//! How texts of circuits begin.

ghost use Rattle.std.specs.Prelude.{◌≡◌};
ghost use Rattle.omega_aiger.specs.Beginnings.{begins_as_circuit, begins_as_form};

/// Whether a text begins as those of circuits do: with `aag ` or `aig `, or with the line `REALIZABLE` and then one of
/// these. What follows is not looked at.
pub fn begins_as_circuit(text: &[u8]) -> bool
    ensures { result ≡ begins_as_circuit text.now }
{
    begins_as_form(text)
        || text.starts_with(b"REALIZABLE\naag ")
        || text.starts_with(b"REALIZABLE\naig ")
}

/// Whether a text begins with `aag ` or `aig `.
fn begins_as_form(text: &[u8]) -> bool
    ensures { result ≡ begins_as_form text.now }
{
    text.starts_with(b"aag ") || text.starts_with(b"aig ")
}
