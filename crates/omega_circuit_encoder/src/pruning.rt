//! Gates that nothing needs, left out.

use crate::gates::GateTable;
use crate::network::Network;
use omega_circuit::Gate;
use omega_graph_search::{NONE, NumberTable, number_of};
use std::alloc::{AllocError, Global};

/// Gates, and the literals that are read at the end of a round. The gates' variables rise without gaps.
#[derive(Drop)]
pub(crate) struct PrunedNetwork {
    pub(crate) gates: Vec<Gate>,
    /// The next literals of the latches.
    pub(crate) nexts: Vec<u32>,
    pub(crate) outputs: Vec<u32>,
}

/// Returns a network without the gates that nothing needs.
pub(crate) fn pruned(alloc: Global, network: &Network) -> Result<PrunedNetwork, AllocError> {
    let mut numbers = needed_gates(alloc, network)?;
    let first = network.gates.first;
    let mut gates = Vec::new(alloc);
    for (number, (left, right)) in network.gates.pairs.iter().enumerate() {
        if numbers.at(number_of(number)) != NONE {
            let variable = first.saturating_add(number_of(gates.len()));
            let left = moved(&numbers, first, *left);
            let right = moved(&numbers, first, *right);
            gates.push(Gate {
                literal: variable.saturating_mul(2),
                left,
                right,
            })?;
            numbers.put(number_of(number), variable);
        }
    }
    Ok(PrunedNetwork {
        gates,
        nexts: all_moved(alloc, &numbers, first, network.nexts.as_slice())?,
        outputs: all_moved(alloc, &numbers, first, network.outputs.as_slice())?,
    })
}

/// Returns a table with a number for each gate that is needed.
fn needed_gates(alloc: Global, network: &Network) -> Result<NumberTable, AllocError> {
    let gates = &network.gates;
    let mut needed = NumberTable::filled(alloc, gates.pairs.len(), NONE)?;
    for literal in &network.outputs {
        need(&mut needed, gates.first, *literal);
    }
    for literal in &network.nexts {
        need(&mut needed, gates.first, *literal);
    }
    // Operands come before their gates.
    for number in (0..gates.pairs.len()).rev() {
        if needed.at(number_of(number)) != NONE {
            need_operands(gates, number, &mut needed);
        }
    }
    Ok(needed)
}

/// Notes that the operands of a gate are needed.
fn need_operands(gates: &GateTable, number: usize, needed: &mut NumberTable) {
    if let Some((left, right)) = gates.pairs.get_index(number) {
        need(needed, gates.first, *left);
        need(needed, gates.first, *right);
    }
}

/// Notes that the gate of a literal is needed, if it is of a gate.
fn need(needed: &mut NumberTable, first: u32, literal: u32) {
    if let Some(number) = (literal / 2).checked_sub(first) {
        needed.put(number, 0);
    }
}

/// Returns a literal with the new variable of its gate, if it is of a gate.
fn moved(numbers: &NumberTable, first: u32, literal: u32) -> u32 {
    match (literal / 2).checked_sub(first) {
        Some(number) => numbers
            .at(number)
            .saturating_mul(2)
            .saturating_add(literal % 2),
        None => literal,
    }
}

/// Returns literals with the new variables of their gates.
fn all_moved(
    alloc: Global,
    numbers: &NumberTable,
    first: u32,
    literals: &[u32],
) -> Result<Vec<u32>, AllocError> {
    let mut all = Vec::with_capacity(alloc, literals.len())?;
    for literal in literals {
        all.push(moved(numbers, first, *literal))?;
    }
    Ok(all)
}
