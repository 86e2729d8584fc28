//! Controllers and counter-strategies for formulas: judged, and searched for.
mod controllers;
mod counter_strategies;
mod realizability;

use omega_hoa_automaton::Refusal;
use omega_text::ByteString;
use std::alloc::Global;

/// Returns names as a list.
fn list_of(alloc: Global, names: &[&str]) -> Result<Vec<ByteString>, Refusal> {
    let mut list = Vec::new(alloc);
    for name in names {
        list.push(ByteString::from_slice(alloc, name.as_bytes())?)?;
    }
    Ok(list)
}
