//! Texts of lassos.
use omega_lang_lasso_text::{Refusal, read_lasso, read_lasso_lines, write_lasso};
use std::alloc::Global;

/// Returns a lasso that is read and written.
pub(crate) fn read_and_written(alloc: Global, call: &str, text: &[u8]) -> Result<Vec<u8>, Refusal> {
    let read = match call {
        "read_lasso" => read_lasso(alloc, text),
        _ => read_lasso_lines(alloc, text),
    };
    match read {
        Ok(lasso) => write_lasso(alloc, lasso.stem.as_slice(), lasso.cycle.as_slice()),
        Err(refusal) => Err(refusal),
    }
}
