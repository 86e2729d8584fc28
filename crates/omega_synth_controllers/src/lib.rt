//! Controllers of automata whose propositions are parted into the system's and the environment's, counter-strategies,
//! and the laws of these.
//!
//! Which propositions of an automaton the system controls, as the header item `controllable-AP:` of extended HOA says.
//!
//! docs/formats.md says when each `Refusal` comes.
#![tactic(auto)]

mod controllable;
mod laws;

pub use controllable::{controlled_propositions, has_controllable_item, stated_propositions};
pub use laws::{
    beating_excludes_realizing, controllers_answer, controllers_exclude_counter_strategies,
    controllers_realize, counter_strategies_beat, counter_strategies_refute,
    kept_runs_are_accepting, realizing_excludes_counter_strategies,
};
pub use omega_hoa_automaton::{Automaton, Refusal};
