/// The form in which the text of a circuit is written.
#[derive(Clone, Copy, Debug, PartialEq, Eq)]
pub enum CircuitForm {
    /// `aag`: all of it in decimal.
    Ascii,
    /// `aig`: gates by deltas, in bytes.
    Binary,
}
