//! Where labels, acceptance formulas and automata end in a text.
use crate::lists::each;
use omega_hoa_acceptance::read_acc;
use omega_hoa_label_text::read_label;
use omega_hoa_syntax::read_raw;
use omega_text::{Cursor, HoaKind, Refusal, TokenSource, hoa_tokens};
use std::alloc::Global;

/// Returns the number of the refusal of a text, or 0 if it begins with what is read, and the place of the refusal or,
/// if it has none, that of the cursor.
pub(crate) fn answer_call(alloc: Global, call: &str, text: &[u8]) -> Result<Vec<u8>, Refusal> {
    let tokens = hoa_tokens(alloc, text)?;
    let mut cursor = Cursor::new(tokens.as_slice(), text.len());
    let refusal = refusal_of_call(alloc, call, &mut cursor);
    let place = cursor.place();
    match refusal {
        Some(refusal) => end(alloc, refusal.number(), refusal.at().unwrap_or(place)),
        None => end(alloc, 0, place),
    }
}

/// Reads what the call names.
fn refusal_of_call<'a, S: TokenSource<'a, HoaKind>>(
    alloc: Global,
    call: &str,
    source: &mut S,
) -> Option<Refusal> {
    match call {
        "end of a label" => read_label(alloc, source).err(),
        "end of a formula" => read_acc(alloc, source).err(),
        _ => read_raw(alloc, source).err(),
    }
}

fn end(alloc: Global, number: u32, place: usize) -> Result<Vec<u8>, Refusal> {
    each(alloc, &[u128::from(number), place as u128])
}
