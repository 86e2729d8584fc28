//! The canonical form of a circuit.

ghost use Rattle.std.specs.Prelude.{◌≡◌, ◌≤◌, ◌<◌, ◌+◌, ◌*◌, ◌/◌, ◌++◌, ◌∷◌, [], ◌↔◌};
ghost use Rattle.std.specs.Prelude.{All, IfOk, IsTrue, List, OnOk, length, map, nat_eq};
ghost use Rattle.std.specs.List.{Contains, IsDistinct, range_with_len};
ghost use Rattle.omega_circuit.specs.Canonical.{IsCanonicalCircuit, MeanTheSame, literals_from};
ghost use Rattle.omega_circuit.specs.Circuit.{IsCircuit, defined_literals};
ghost use Rattle.omega_circuit.specs.Limits.{most_variables};
ghost use Rattle.omega_circuit.specs.private.Numbers.{AreNets, AreNumbered};
ghost use Rattle.omega_circuit.specs.private.Renumbered.{AddsNet, AreLatchesFrom, AreReady, IsNumbering};
ghost use Rattle.omega_circuit.specs.private.Renumbered.{greater_first};
ghost use Rattle.omega_circuit.specs.declared.gate.Gate.{Gate};

use crate::circuit::{Circuit, circuit_of_lists};
use crate::gate::Gate;
use crate::latch::Latch;
use crate::symbol::Symbol;
use crate::variables::{push_gates, push_latches};
use crate::wiring::{nets_of, numbers_of};
use indexmap::IndexSet;
use omega_text::ByteString;
use std::alloc::{AllocError, Global};

/// Returns the canonical form of a circuit, which means the same: inputs, latches and gates have the variables from 1
/// on, in this order, and each gate has operands below it, the greater one first. Gates stand in the order of a
/// depth-first search without recursion: each gate as it is given, after its left and then its right operand. So gates
/// that come after their operands already keep their order. Resets and symbols are kept, and a circuit in canonical
/// form is returned as it is. Takes expected linear time.
pub fn canonical_circuit(alloc: Global, circuit: &Circuit) -> Result<Circuit, AllocError>
    ensures shape { IfOk result IsCanonicalCircuit }
    ensures same { IfOk result (MeanTheSame circuit.now) }
    ensures kept { IsCanonicalCircuit circuit.now → IfOk result (λ made. made ≡ circuit.now) }
{
    let canonical = is_canonical(alloc, circuit)?;
    if canonical {
        return copy_of(alloc, circuit);
    }
    circuit.renumbered_circuit(alloc)
}

/// Whether a circuit is in canonical form.
fn is_canonical(alloc: Global, circuit: &Circuit) -> Result<bool, AllocError>
    ensures { IfOk result (λ canonical. IsTrue canonical ↔ IsCanonicalCircuit circuit.now) }
{
    let literals = literals_of(alloc, circuit)?;
    Ok(are_numbered(literals.as_slice()) && are_operands_in_order(circuit.gates()))
}

/// Returns the literals that a circuit defines: 0, and those of inputs, latches and gates.
fn literals_of(alloc: Global, circuit: &Circuit) -> Result<Vec<u32>, AllocError>
    ensures { IfOk result (λ literals. literals.items ≡ defined_literals circuit.now) }
{
    let mut literals = Vec::new(alloc);
    literals.push(0)?;
    literals.extend_from_slice(circuit.inputs())?;
    push_latches(&mut literals, circuit.latches())?;
    push_gates(&mut literals, circuit.gates())?;
    Ok(literals)
}

/// Whether literals are those of the variables from 0 on.
fn are_numbered(literals: &[u32]) -> bool
    ensures { IsTrue result ↔ literals.now ≡ literals_from 0 (length literals.now) }
{
    for (variable, literal) in literals.iter().enumerate() {
        if !is_literal_of(*literal, variable) {
            return false;
        }
    }
    true
}

/// Whether a literal is that of a variable.
fn is_literal_of(literal: u32, variable: usize) -> bool
    ensures { IsTrue result ↔ literal ≡ 2 * variable }
{
    literal as u128 == 2 * variable as u128
}

/// Whether the operands of each gate are below it, the greater one first.
fn are_operands_in_order(gates: &[Gate]) -> bool
    ensures { IsTrue result ↔ All (λ (gate : Gate). (gate.left < gate.literal)
        × (gate.right ≤ gate.left)) gates.now }
{
    gates
        .iter()
        .all(|gate| gate.left < gate.literal && gate.right <= gate.left)
}

/// Returns a copy of a circuit in canonical form.
fn copy_of(alloc: Global, circuit: &Circuit) -> Result<Circuit, AllocError>
    requires { IsCanonicalCircuit circuit.now }
    ensures { IfOk result (λ made. made ≡ circuit.now) }
{
    circuit.is_circuit();
    let inputs = Vec::from_slice(alloc, circuit.inputs())?;
    let latches = Vec::from_slice(alloc, circuit.latches())?;
    let outputs = Vec::from_slice(alloc, circuit.outputs())?;
    let gates = Vec::from_slice(alloc, circuit.gates())?;
    let symbols = symbols_of(alloc, circuit.symbols())?;
    let made = circuit_of_lists(alloc, inputs, latches, outputs, gates, symbols)?;
    Ok(made)
}

/// Returns copies of symbols.
fn symbols_of(alloc: Global, symbols: &[Symbol]) -> Result<Vec<Symbol>, AllocError>
    ensures { IfOk result (λ copies. copies.items ≡ symbols.now) }
{
    let mut copies = Vec::with_capacity(alloc, symbols.len())?;
    for symbol in symbols {
        let name = ByteString::from_slice(alloc, symbol.name.as_slice())?;
        copies.push(Symbol {
            kind: symbol.kind,
            position: symbol.position,
            name,
        })?;
    }
    Ok(copies)
}

impl Circuit {
    /// Returns the canonical form by the wires, whose gates stand in an order already.
    fn renumbered_circuit(&self, alloc: Global) -> Result<Circuit, AllocError>
        ensures shape { IfOk result IsCanonicalCircuit }
        ensures same { IfOk result (MeanTheSame self.now) }
    {
        let first_latch = 1 + self.inputs().len();
        let first_gate = first_latch + self.latches().len();
        let (numbers, nets) = numbering_of(alloc, first_gate, self.wires.gates.as_slice())?;
        let nexts = all_numbers(alloc, &numbers, self.wires.reads.nexts.as_slice())?;
        let outputs = all_numbers(alloc, &numbers, self.wires.reads.outputs.as_slice())?;
        let gates = gates_of(alloc, &numbers, first_gate, nets.as_slice())?;
        let inputs = input_literals(alloc, self.inputs().len())?;
        let latches = latches_from(alloc, first_latch, self.latches(), nexts.as_slice())?;
        let symbols = symbols_of(alloc, self.symbols())?;
        let made = circuit_of_lists(alloc, inputs, latches, outputs, gates, symbols)?;
        Ok(made)
    }
}

/// Returns numbers in a new order, and the gates that have numbers from `first` on: first the numbers that are no
/// gates, and then those of `steps`, each once.
fn numbering_of(
    alloc: Global,
    first: usize,
    steps: &[Gate],
) -> Result<(IndexSet<u32>, Vec<Gate>), AllocError>
    requires first { first ≤ most_variables + 1 }
    requires ready { AreReady first steps.now }
    ensures { IfOk result (λ made. IsNumbering first steps.now made.0.keys made.1.items) }
{
    let mut numbers = first_numbers(alloc, first)?;
    let mut nets = Vec::new(alloc);
    for step in steps {
        add_net(&mut numbers, &mut nets, *step)?;
    }
    Ok((numbers, nets))
}

/// Returns the first numbers, in order.
fn first_numbers(alloc: Global, count: usize) -> Result<IndexSet<u32>, AllocError>
    requires { count ≤ most_variables + 1 }
    ensures order { IfOk result (λ numbers. numbers.keys ≡ range_with_len 0 count) }
    ensures apart { IfOk result (λ numbers. IsDistinct nat_eq numbers.keys) }
{
    let mut numbers = IndexSet::new(alloc);
    for number in 0..count {
        numbers.insert(number as u32)?;
    }
    Ok(numbers)
}

/// Adds a gate and its number, unless the number is there.
fn add_net(numbers: &mut IndexSet<u32>, nets: &mut Vec<Gate>, net: Gate) -> Result<(), AllocError>
    ensures added { OnOk result
        (AddsNet numbers.old.keys numbers.new.keys nets.old.items nets.new.items net) }
    ensures apart { OnOk result (IsDistinct nat_eq numbers.new.keys) }
{
    if !numbers.insert(net.literal / 2)? {
        return Ok(());
    }
    nets.push(net)?;
    Ok(())
}

/// Returns literals with the places of their variables among `numbers`, which have them all.
fn all_numbers(
    alloc: Global,
    numbers: &IndexSet<u32>,
    literals: &[u32],
) -> Result<Vec<u32>, AllocError>
    requires few { length numbers.now.keys ≤ most_variables + 1 }
    requires there { All (λ literal. Contains numbers.now.keys (literal / 2)) literals.now }
    ensures { IfOk result (λ found. AreNumbered numbers.now.keys literals.now found.items) }
{
    let found = numbers_of(alloc, numbers, literals)?;
    match found {
        Some(places) => Ok(places),
        None => unreachable!(),
    }
}

/// Returns gates with the places of their operands among `numbers`, which have them all, the greater one first. Their
/// own variables are numbered from `first` on.
fn gates_of(
    alloc: Global,
    numbers: &IndexSet<u32>,
    first: usize,
    nets: &[Gate],
) -> Result<Vec<Gate>, AllocError>
    requires few { length numbers.now.keys ≤ most_variables + 1 }
    requires room { first + length nets.now ≤ most_variables + 1 }
    requires there { All (λ (net : Gate). Contains numbers.now.keys (net.left / 2)
        × Contains numbers.now.keys (net.right / 2)) nets.now }
    ensures { IfOk result (λ gates. (made : List Gate) × AreNets numbers.now.keys first nets.now made
        × (gates.items ≡ map greater_first made)) }
{
    let found = nets_of(alloc, numbers, first, nets)?;
    match found {
        Some(made) => {
            let gates = greater_operands_first(alloc, made.as_slice())?;
            Ok(gates)
        }
        None => unreachable!(),
    }
}

/// Returns gates with the greater operand first.
fn greater_operands_first(alloc: Global, gates: &[Gate]) -> Result<Vec<Gate>, AllocError>
    ensures { IfOk result (λ made. made.items ≡ map greater_first gates.now) }
{
    let mut made = Vec::with_capacity(alloc, gates.len())?;
    for gate in gates {
        made.push(greater_first(*gate))?;
    }
    Ok(made)
}

/// Returns a gate with its greater operand first.
fn greater_first(gate: Gate) -> Gate
    ensures { result ≡ greater_first gate }
{
    if gate.left < gate.right {
        Gate {
            literal: gate.literal,
            left: gate.right,
            right: gate.left,
        }
    } else {
        gate
    }
}

/// Returns the literals of the first `count` variables after false.
fn input_literals(alloc: Global, count: usize) -> Result<Vec<u32>, AllocError>
    requires { count ≤ most_variables }
    ensures { IfOk result (λ literals. literals.items ≡ literals_from 1 count) }
{
    let mut literals = Vec::with_capacity(alloc, count)?;
    for k in 0..count {
        literals.push(2 * (1 + k) as u32)?;
    }
    Ok(literals)
}

/// Returns latches with these next literals, which have the variables from `first` on.
fn latches_from(
    alloc: Global,
    first: usize,
    latches: &[Latch],
    nexts: &[u32],
) -> Result<Vec<Latch>, AllocError>
    requires room { first + length latches.now ≤ most_variables + 1 }
    requires nexts { length nexts.now ≡ length latches.now }
    ensures { IfOk result (λ made. AreLatchesFrom first latches.now nexts.now made.items) }
{
    let mut made = Vec::with_capacity(alloc, latches.len())?;
    for (k, latch) in latches.iter().enumerate() {
        made.push(Latch {
            literal: 2 * (first + k) as u32,
            next: nexts[k],
            reset: latch.reset,
        })?;
    }
    Ok(made)
}
