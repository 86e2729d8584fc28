ghost use Rattle.std.specs.Prelude.{[], IfErr, IfOk};
ghost use Rattle.omega_text.specs.Reading.{IsReadText, IsReadingRefusal};

use crate::limits::MOST_TEXT;
use crate::refusal::{Refusal, TextFault};
use crate::token_kind::TokenKind;
use crate::token_reader::{TokenReader, read_tokens};

/// Reads the whole text `bytes` with `reader`, and returns what it becomes. Refused with a `TextFault` or
/// [Refusal::Memory].
///
/// The length is judged first ([TextFault::TooLong]), then tokens at any place ([TextFault::Lex], [TextFault::Number]),
/// then syntax ([TextFault::Syntax]). The bytes are read once, from the left.
pub fn read_text<K: TokenKind, R: TokenReader<K>>(reader: R, bytes: &[u8]) -> Result<R, Refusal>
    requires { R.becomes reader [] reader }
    ensures read { IfOk result (λ after.
        IsReadText K.format (λ lexemes. R.becomes reader lexemes after) R.completes bytes.now) }
    ensures refused { IfErr result (IsReadingRefusal K.format R.begins R.completes bytes.now) }
{
    if bytes.len() > MOST_TEXT {
        return Err(Refusal::Text(TextFault::TooLong));
    }
    let after = read_tokens(reader, bytes)?;
    if after.is_complete() {
        Ok(after)
    } else {
        Err(Refusal::Text(TextFault::Syntax { at: bytes.len() }))
    }
}
