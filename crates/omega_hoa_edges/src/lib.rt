//! The common parts of texts of automata and of automata that are made of others: labels of edges, also of edges
//! written without one, names without quotes, and limits. Also labels and acceptance formulas as a text writes them,
//! with parentheses only if an operator needs them, whether labels can be true, and whether a state without labels has
//! an edge for each valuation.
//!
//! docs/formats.md says when each refusal comes.
//!
//! Conjunctions of labels in which no conjunct stands twice.
//!
//! docs/formats.md says when each refusal comes.
//!
//! Whether an automaton is deterministic: it has at most one start, and at each letter a state has at most one edge.
//!
//! docs/formats.md says when each refusal comes.
#![tactic(auto)]

mod determinism;
mod edge_labels;
mod exclusive;
mod finding;
mod fitting;
mod formula_writing;
mod full_states;
mod joining;
mod judging;
mod label_writing;
mod labels;
mod lending;
mod limits;
mod names;
mod parts;
mod state_labels;
mod states_by_number;
mod summary;
mod undefined;

pub use determinism::{check_deterministic_states, check_one_start};
pub use edge_labels::has_bit;
pub use exclusive::check_exclusive_labels;
pub use finding::{conjuncts_of, conjuncts_of_both};
pub use fitting::{fitting_nodes, judge_size};
pub use formula_writing::{conjoined_formula, disjoined_formula, written_formula};
pub use full_states::is_full;
pub use joining::joined_label;
pub use judging::can_hold_together;
pub use label_writing::written_form;
pub use labels::labels_of;
pub use lending::{EdgeLabel, edge_label};
pub use limits::{MOST_EDGES, MOST_STATES, written_limits_are_stated};
pub use names::is_identifier;
pub use omega_hoa_automaton::{Automaton, Refusal, State};
pub use state_labels::StateLabels;
pub use states_by_number::StatesByNumber;
pub use summary::{LabelSummary, can_summaries_meet};
pub use undefined::undefined_state;
