//! Whether a label can be true, even if it mentions many propositions.
//!
//! A conjunction of literals is two sets of bits (`literals`). A label that mentions few propositions is judged under
//! all their valuations (`satisfying`), 64 at once in the bits of a word (`words`, `mentioned`), and so are two labels
//! together (`together`). Those under the valuations of the first six propositions are its truth table (`tables`), and
//! those of the first twelve its wide table (`wide_table`), with which literals are compared lane by lane
//! (`literal_lanes`). Conjunctions of literals that are joined by `|` are read one after the other (`cube_reader`), and
//! their lanes added up make the wide table (`cube_words`). Another label is turned into steps of a search (`steps`,
//! `encoding`) part by part (`part`, `exits`), while left parts wait on a stack (`left_parts`). The search goes from
//! step to step (`search`), and its open branches lie on a stack too (`branches`).
//!
//! docs/formats.md says when each [`Refusal`] comes.
#![tactic(auto)]

mod answer;
mod branches;
mod cube_reader;
mod cube_words;
mod encoding;
mod exits;
mod laws;
mod left_parts;
mod limits;
mod literal_lanes;
mod literals;
mod mentioned;
mod part;
mod satisfying;
mod search;
mod steps;
mod tables;
mod together;
mod wide_table;
mod words;

pub use answer::{can_hold, is_satisfiable};
pub use laws::{labels_are_their_cubes, normal_forms_are_decided};
pub use limits::{MOST_VISITED, visits_limit_is_stated};
pub use literals::Literals;
pub use satisfying::{is_narrow, satisfiable};
pub use tables::TruthTable;
pub use together::satisfiable_together;
pub use wide_table::WideTable;
