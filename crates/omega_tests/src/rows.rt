//! Rows of tables.
use omega_text::Refusal;
use std::process::Abort;

/// Asserts that a row of a table holds. A message that is put together is slow to prove: so this one serves all tables.
pub(crate) fn assert_row(rt: &impl Abort, row: usize, holds: bool) {
    assert!(rt; holds, "row {row}");
}

/// Whether a text was made, and is this one.
pub(crate) fn is_text(made: Result<Vec<u8>, Refusal>, text: &[u8]) -> bool {
    match made {
        Ok(found) => found.as_slice() == text,
        Err(_) => false,
    }
}

/// Returns the number of the refusal, or 0 if there is none.
pub(crate) fn number_of<T>(made: &Result<T, Refusal>) -> u32 {
    match made {
        Ok(_) => 0,
        Err(refusal) => refusal.number(),
    }
}
