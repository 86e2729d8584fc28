use crate::gate::Gate;
use crate::latch::Latch;
use crate::properties::Properties;
use crate::symbol::Symbol;
use omega_text::Seq;

/// What a text or a caller says of a circuit, before [`circuit_of`](crate::circuit_of) judges it.
#[derive(Debug, Drop)]
pub struct CircuitParts {
    /// The greatest variable that literals may have.
    pub most_variable: u32,
    /// Whether each variable up to the greatest has to be defined, as the binary form of the format demands.
    pub is_dense: bool,
    /// The literals of the inputs.
    pub inputs: Seq<u32>,
    /// The latches.
    pub latches: Seq<Latch>,
    /// The literals of the outputs.
    pub outputs: Seq<u32>,
    /// The gates, in any order.
    pub gates: Seq<Gate>,
    /// The names, in any order.
    pub symbols: Seq<Symbol>,
    /// The properties.
    pub properties: Properties,
}
