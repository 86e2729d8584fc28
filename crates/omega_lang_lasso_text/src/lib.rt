//! Texts of lassos, as numbers of edges: read and written exactly.
//!
//! docs/formats.md says when each refusal comes.
#![tactic(auto)]

mod format;
mod kind;
mod lasso;
pub mod laws;
mod lines;
mod reader;
mod reading;
mod stage;
mod syntax;
mod token;
mod writing;

pub use kind::LassoKind;
pub use lasso::LassoText;
pub use lines::read_lasso_lines;
pub use omega_text::{Refusal, Seq};
pub use reading::read_lasso;
pub use writing::{append_numbers, write_lasso};
