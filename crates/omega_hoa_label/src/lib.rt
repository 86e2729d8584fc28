//! Labels of omega-automata: held in little memory, put together, taken apart and written.
//!
//! docs/formats.md says when each `Refusal` comes.
#![tactic(auto)]

mod codes;
mod compact;
mod depth;
mod grouping;
mod label;
mod laws;
mod making;
mod nodes;
mod notation;
mod raw;
mod read_nodes;
mod shape;
mod shapes;
mod writing;
mod written;

pub use codes::{MOST_IN_PLACE, ROOM};
pub use label::{Label, LabelNode};
pub use laws::equal_labels_are_equal_trees;
pub use nodes::LabelNodes;
pub use raw::{RawLabel, name_length};
pub use read_nodes::ReadNodes;
pub use shape::LabelShape;
pub use writing::write_label;
