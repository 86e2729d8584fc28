use crate::raw_item::RawItem;
use crate::raw_state::RawState;
use omega_text::{ByteString, Seq};

/// An automaton as its text writes it, from `HOA:` to `--END--` (HOA v1).
#[derive(Debug, Drop)]
pub struct RawAutomaton {
    /// The identifier after `HOA:`.
    pub version: ByteString,
    /// The items of the header in the order written.
    pub items: Seq<RawItem>,
    /// The states of the body in the order written.
    pub states: Seq<RawState>,
}
