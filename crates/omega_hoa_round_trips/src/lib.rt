//! Laws: the canonical texts of omega-automata, and of streams of them, are read back.
#![tactic(auto)]

mod laws;

pub use laws::{
    canonical_streams_are_read, canonical_texts_are_read, canonical_texts_are_spelled,
    read_automata_are_writable,
};
