//! Measures as rows of numbers, side by side, and the allowance of a row (Jurdziński 2000).
#![tactic(auto)]

mod rows;

pub use rows::{compare_at, copy_row, raise_at, row};
