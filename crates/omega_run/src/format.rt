ghost use Rattle.omega_run.specs.Formats.{IsFormatOf};

use omega_aiger::begins_as_circuit;
use omega_cli_command::Format;
use omega_text::next_hoa_token;

/// Returns the format of `text`: that of circuits if it begins as one, that of automata if its first token is `HOA:`,
/// else that of games.
pub(crate) fn format_of(text: &[u8]) -> Format
    ensures { IsFormatOf text.now result }
{
    if begins_as_circuit(text) {
        return Format::Aiger;
    }
    match next_hoa_token(text, 0) {
        Ok(Some(token)) => {
            if token.text == b"HOA:".as_slice() {
                Format::Hoa
            } else {
                Format::Pg
            }
        }
        Ok(None) => Format::Pg,
        Err(_) => Format::Pg,
    }
}
