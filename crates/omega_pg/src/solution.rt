//! Texts of solutions: how they are read and written, and laws of all.

pub(crate) mod laws;
mod lines;
mod reader;
pub(crate) mod reading;
mod solution_lines;
mod stage;
pub(crate) mod syntax;
pub(crate) mod winner_laws;
mod winner_lines;
pub(crate) mod winner_reading;
pub(crate) mod writing;
