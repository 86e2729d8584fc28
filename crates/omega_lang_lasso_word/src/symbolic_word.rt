use omega_hoa_label::RawLabel;
use omega_text::{ByteString, Seq};

/// A word whose letters are formulas. After the letters of the stem come those of the cycle, again and again.
///
/// Each letter says which names hold at its index, and leaves the others open.
#[derive(Debug, Drop, PartialEq, Eq)]
pub struct SymbolicWord {
    /// The names, each once. A proposition of a letter is the place of its name here.
    pub names: Seq<ByteString>,
    /// The letters before the cycle. There may be none.
    pub stem: Seq<RawLabel>,
    /// The first letter of the cycle.
    pub first: RawLabel,
    /// The other letters of the cycle. There may be none.
    pub others: Seq<RawLabel>,
}
