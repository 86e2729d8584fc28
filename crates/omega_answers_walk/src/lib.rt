//! Answers about walks in games: explanations of verdicts with names, and drawings with a walk.
//!
//! docs/formats.md says when each refusal comes.
//!
//! Texts of walks in games, as `verify --explain` writes them: read exactly.
//!
//! docs/formats.md says when each refusal comes.
#![tactic(auto)]

mod covering;
mod draw;
mod explanation;
mod extent;
mod joining;
pub mod laws;
mod places;
mod reading;
mod sizes;
mod verify;
mod walk;
pub mod walk_text_laws;

pub use draw::draw_walk_text;
pub use omega_io::{Exit, Refused};
pub use omega_lang_lasso_text::LassoText;
pub use omega_text::Refusal;
pub use reading::read_walk;
pub use verify::verify_with_names;
