//! Parity kinds of acceptance, and the priority of marks.
//!
//! The crate `omega_hoa_acceptance` says which formula a kind has, and which kind a name has.
#![tactic(auto)]

mod kind;
mod priorities;

pub use kind::{Order, Parity, ParityKind};
pub use priorities::priority;
