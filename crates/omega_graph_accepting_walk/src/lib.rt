//! A search for a closed walk whose marks satisfy an acceptance formula, by strongly connected components and a case
//! split on the formula.
//!
//! Its only refusal is [`Refusal::Memory`]; docs/formats.md says when each refusal comes.
#![tactic(auto)]

mod accepting;
mod exploring;
mod flattening;
mod meeting;
mod narrowing;
mod node;
mod places;
mod round;
mod search;
mod set_table;
mod stepping;
mod task;
mod touring;
mod valuing;
mod walked;
mod way;

pub use accepting::accepting_walk;
pub use omega_graph::{Graph, Refusal};
pub use omega_hoa_acceptance::Acc;
