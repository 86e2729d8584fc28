//! The faults of an automaton text's meaning that apply (docs/formats.md, meaning of an automaton text): a file a
//! subject.

mod acceptance;
mod body;
mod counts;
mod edges;
mod expansions;
mod findings;
mod header;
mod implicit;
mod order;
mod propositions;
mod repeats;
mod sets;
mod states;
mod version;

pub(crate) use acceptance::has_deep_acceptance;
pub(crate) use body::{BodyFound, found_of_states};
pub(crate) use counts::{Counts, counts_of};
pub(crate) use expansions::judge_last;
pub(crate) use findings::findings_of;
pub(crate) use order::{early_fault, late_fault};
