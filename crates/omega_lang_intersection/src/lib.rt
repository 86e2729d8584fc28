//! Whether two automata accept a common word, and if so, words that both accept. Neither has to be deterministic, and
//! each has the acceptance that it likes.
//!
//! The product of the two is not made, only its graph. Each edge of the graph has the numbers of the two edges that it
//! takes together. By these the letters of a lasso are found (`letters`), and the lasso of the first automaton.
//!
//! docs/formats.md says when each refusal comes.
#![tactic(auto)]

mod answer;
mod intersecting;
mod joints;
mod letters;
mod searching;

pub use answer::{Example, Intersection};
pub use intersecting::intersection;
pub use omega_hoa_automaton::{Automaton, Refusal};
