//! Automata of the Hanoi format, one to a text or in streams, read whole or in pieces.
//!
//! docs/formats.md says when each `Refusal` comes.
#![tactic(auto)]

mod alone;
mod division;
mod ending;
mod item;
mod laws;
mod outline;
mod progress;
mod reading;
mod segment;
mod segment_cursor;
mod stream;
mod whole_segment;

pub use alone::read_one;
pub use item::Item;
pub use laws::{
    automata_are_one, automata_are_unrefused, automata_fill_segments, automata_or_refused,
    pieces_change_nothing, refusals_are_one, stream_faults_are_one, streams_are_one,
    streams_are_unrefused, streams_or_refused,
};
pub use omega_hoa_automaton::{Automaton, Edge, EdgeRef, Edges, State};
pub use omega_text::Refusal;
pub use reading::read_stream;
pub use stream::Stream;
