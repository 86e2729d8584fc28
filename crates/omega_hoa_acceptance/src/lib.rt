//! Acceptance formulas of omega-automata: read, with their meaning, taken apart and written; and the kind that a name
//! and its formula have. Hands on parity kinds and their priorities, which `omega_hoa_parity_kind` has.
//!
//! docs/formats.md says when each `Refusal` comes.
#![tactic(auto)]

mod formula;
mod judging;
mod kind;
mod laws;
mod name;
mod plain;
mod raw;
mod reading;
mod recognition;
mod rewriting;
mod shape;
mod shapes;
mod truths;
mod unfinished;
mod writing;
mod written;

pub use formula::{Acc, AccNode};
pub use judging::AtomJudge;
pub use kind::AccKind;
pub use laws::{
    buchi_is_every_set, equal_formulas_are_equal_trees, formulas_are_one, parity_is_priority,
};
pub use name::{AccName, Parameter};
pub use omega_hoa_parity_kind::{Order, Parity, ParityKind, priority};
pub use raw::RawAcc;
pub use reading::{read_acc, read_raw_acc};
pub use recognition::{acceptance_kind, is_buchi, parity_of};
pub use shape::AccShape;
pub use writing::write_acc;
