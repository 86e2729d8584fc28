//! Label and acceptance formulas of omega-automata, aliases, acceptance kinds and priorities, and their laws.
//!
//! What labels and formulas are, and what is done with them, the crates `omega_hoa_label`, `omega_hoa_label_text`,
//! `omega_hoa_label_text`, `omega_hoa_acceptance` and `omega_hoa_satisfiable` have; all of it is handed on here. The
//! laws of canonical texts are in `laws`.
//!
//! docs/formats.md says when each `Refusal` comes.
#![tactic(auto)]

mod laws;

pub use laws::{
    acc_texts_are_formulas, label_texts_are_labels, written_formulas_are_shallowest,
    written_formulas_mean, written_labels_are_shallowest, written_labels_mean,
};
pub use omega_hoa_acceptance::{
    Acc, AccKind, AccName, AccShape, Order, Parameter, Parity, ParityKind, RawAcc, acceptance_kind,
    buchi_is_every_set, equal_formulas_are_equal_trees, formulas_are_one, parity_is_priority,
    parity_of, priority, read_acc, read_raw_acc, write_acc,
};
pub use omega_hoa_expression::{
    MOST_BUCHI_SETS, MOST_DEPTH, MOST_MENTIONED, MOST_SIZE, expression_limits_are_stated,
};
pub use omega_hoa_label::{Label, LabelShape, RawLabel, equal_labels_are_equal_trees, write_label};
pub use omega_hoa_label_text::{
    Aliases, Extent, expand, expand_in_place, expanded_size, labels_are_one, read_label,
    read_raw_label,
};
pub use omega_hoa_satisfiable::satisfiable;
