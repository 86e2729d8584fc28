//! The parts of a circuit.

ghost use Rattle.std.specs.Prelude.{◌≡◌, IfOk};

use crate::parting::Parting;
use crate::pruning::PrunedNetwork;
use omega_circuit::{CircuitParts, Latch, Properties, Symbol};
use omega_graph_search::number_of;
use omega_text::Seq;
use std::alloc::{AllocError, Global};

/// Returns the parts of the circuit of a network, with these symbols.
pub(crate) fn parts_of(
    alloc: Global,
    parting: &Parting,
    network: PrunedNetwork,
    symbols: Vec<Symbol>,
) -> Result<CircuitParts, AllocError>
    ensures { IfOk result (λ parts. parts.symbols ≡ symbols.items) }
{
    let PrunedNetwork {
        gates,
        nexts,
        outputs,
    } = network;
    let inputs = number_of(parting.inputs.len());
    let latches = latches_of(alloc, inputs, nexts.as_slice())?;
    let defined = number_of(latches.len())
        .saturating_add(inputs)
        .saturating_add(number_of(gates.len()));
    let literals = input_literals(alloc, inputs)?;
    Ok(CircuitParts {
        most_variable: defined,
        is_dense: true,
        inputs: Seq::from_vec(literals),
        latches: Seq::from_vec(latches),
        outputs: Seq::from_vec(outputs),
        gates: Seq::from_vec(gates),
        symbols: Seq::from_vec(symbols),
        properties: no_properties(alloc),
    })
}

/// Returns the literals of `count` inputs.
fn input_literals(alloc: Global, count: u32) -> Result<Vec<u32>, AllocError> {
    let mut literals = Vec::new(alloc);
    for place in 0..count {
        literals.push(place.saturating_add(1).saturating_mul(2))?;
    }
    Ok(literals)
}

/// Returns latches after `inputs` inputs that take these values and begin with 0.
fn latches_of(alloc: Global, inputs: u32, nexts: &[u32]) -> Result<Vec<Latch>, AllocError> {
    let mut latches = Vec::new(alloc);
    for (place, next) in nexts.iter().enumerate() {
        let variable = inputs.saturating_add(number_of(place)).saturating_add(1);
        latches.push(Latch {
            literal: variable.saturating_mul(2),
            next: *next,
            reset: 0,
        })?;
    }
    Ok(latches)
}

/// Returns no properties.
fn no_properties(alloc: Global) -> Properties {
    Properties {
        bad: Seq::new(alloc),
        constraints: Seq::new(alloc),
        justice_sizes: Seq::new(alloc),
        justice: Seq::new(alloc),
        fairness: Seq::new(alloc),
    }
}
