//! What a refusal says of a text's grammar.

ghost use Rattle.std.specs.Prelude.{◌≡◌};
ghost use Rattle.omega_pg_diagnostics.specs.private.Grammar.{is_in_grammar};

use omega_text::Refusal;

/// Whether a text with this `refusal` is in its grammar. [Refusal::Memory] says nothing and is handed on.
pub(crate) fn is_in_grammar(refusal: Refusal) -> Result<bool, Refusal>
    ensures { result ≡ is_in_grammar refusal }
{
    match refusal {
        Refusal::Text(_) => Ok(false),
        Refusal::Memory => Err(Refusal::Memory),
        _ => Ok(true),
    }
}
