//! Texts of games: how they are read and written, and laws of all.

pub(crate) mod laws;
mod pieces;
mod reader;
pub(crate) mod reading;
mod runs;
mod stage;
pub(crate) mod syntax;
pub(crate) mod writing;
