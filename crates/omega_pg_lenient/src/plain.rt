ghost use Rattle.std.specs.Prelude.{◌≡◌, ◌++◌, IfOk, IsOkUnless};
ghost use Rattle.omega_pg_lenient.specs.Plain.{begins_with_mark, plain_text};

use crate::bytes::{byte_at, tail};
use crate::context::Context;
use omega_text::Refusal;
use std::alloc::Global;

/// Returns the plain text of `source`: spaces stand for its comments and its byte order mark, and `?` for each byte
/// that no name of a game may have. Refused with [Refusal::Memory] alone.
///
/// Each byte keeps its place. The cost is linear in the text.
pub fn plain_text(alloc: Global, source: &[u8]) -> Result<Vec<u8>, Refusal>
    ensures text { IfOk result (λ text. text.items ≡ plain_text source.now) }
    ensures memory { IsOkUnless result Refusal.Memory }
{
    let mut text = Vec::with_capacity(alloc, source.len())?;
    let mut at = 0;
    if begins_with_mark(source) {
        text.extend_from_slice(b"   ")?;
        at = 3;
    }
    let mut context = Context::Outside;
    while at < source.len() {
        let byte = source[at];
        let next = context.after(byte, tail(source, at + 1));
        text.push(context.shown_byte(next, byte))?;
        context = next;
        at += 1;
    }
    Ok(text)
}

/// Whether `source` begins with the byte order mark of UTF-8.
fn begins_with_mark(source: &[u8]) -> bool
    ensures { result ≡ begins_with_mark source.now }
{
    byte_at(source, 0) == 239 && byte_at(source, 1) == 187 && byte_at(source, 2) == 191
}
