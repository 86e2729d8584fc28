//! A circuit, and how it is made.

ghost use Rattle.std.specs.Prelude.{◌≡◌, IfErr, IfOk};
ghost use Rattle.omega_circuit.specs.Canonical.{IsCanonicalCircuit};
ghost use Rattle.omega_circuit.specs.Circuit.{IsCircuit};
ghost use Rattle.omega_circuit.specs.Faults.{IsCircuitOf, IsCircuitRefusal};
ghost use Rattle.omega_circuit.specs.private.Steps.{circuit_with};

use crate::gate::Gate;
use crate::judging::{next_literals, ordered_wires};
use crate::latch::Latch;
use crate::parts::CircuitParts;
use crate::symbol::Symbol;
use crate::wiring::{Reads, Wires};
use omega_text::{Refusal, Seq};
use std::alloc::{AllocError, Global};
use std::marker::Model;

/// A circuit of and-gates and latches: each variable that is used has one definition, which doesn't lead back to it.
#[derive(Debug)]
pub struct Circuit {
    inputs: Seq<u32>,
    latches: Seq<Latch>,
    outputs: Seq<u32>,
    gates: Seq<Gate>,
    symbols: Seq<Symbol>,
    /// The wires, each gate after those that it uses.
    pub(crate) wires: Wires,
}

impl Drop for Circuit {
    fn drop(self) {
        let Circuit {
            inputs: _,
            latches: _,
            outputs: _,
            gates: _,
            symbols: _,
            wires: _,
        } = self;
    }
}

impl Model for Circuit {
    ghost use Rattle.omega_circuit.specs.Circuit.{CircuitValue, IsCircuit};

    ghost Value = { CircuitValue };

    ghost use Rattle.omega_circuit.specs.private.Steps.{AreSteps, circuit_with};
    ghost use Rattle.omega_circuit.specs.private.Wires.{AreReads};

    ghost view = { λ a. circuit_with a.inputs a.latches a.outputs a.gates a.symbols };

    ghost invariant = { λ a.
        IsCircuit (circuit_with a.inputs a.latches a.outputs a.gates a.symbols)
        × AreSteps (circuit_with a.inputs a.latches a.outputs a.gates a.symbols) a.wires.gates.items
        × AreReads (circuit_with a.inputs a.latches a.outputs a.gates a.symbols) a.wires.reads };
}

/// Returns the circuit that `parts` make. Takes expected linear time in the parts, and memory by what they have and not
/// by their greatest variable.
///
/// Fails with the fault of the least number of those that apply: see [`CircuitFault`](omega_text::CircuitFault).
pub fn circuit_of(alloc: Global, parts: CircuitParts) -> Result<Circuit, Refusal>
    ensures ok { IfOk result (IsCircuitOf parts) }
    ensures err { IfErr result (IsCircuitRefusal parts) }
{
    let wires = ordered_wires(alloc, &parts)?;
    let CircuitParts {
        inputs,
        latches,
        outputs,
        gates,
        symbols,
        ..
    } = parts;
    Ok(Circuit {
        inputs,
        latches,
        outputs,
        gates,
        symbols,
        wires,
    })
}

/// Returns the circuit of these lists, which is in canonical form: so its literals are numbered as they stand.
pub(crate) fn circuit_of_lists(
    alloc: Global,
    inputs: Vec<u32>,
    latches: Vec<Latch>,
    outputs: Vec<u32>,
    gates: Vec<Gate>,
    symbols: Vec<Symbol>,
) -> Result<Circuit, AllocError>
    requires shape { IsCanonicalCircuit (circuit_with inputs.items latches.items outputs.items gates.items
        symbols.items) }
    requires circuit { IsCircuit (circuit_with inputs.items latches.items outputs.items gates.items
        symbols.items) }
    ensures { IfOk result (λ made. made ≡ circuit_with inputs.items latches.items outputs.items gates.items
        symbols.items) }
{
    let nexts = next_literals(alloc, latches.as_slice())?;
    let read_outputs = Vec::from_slice(alloc, outputs.as_slice())?;
    let steps = Vec::from_slice(alloc, gates.as_slice())?;
    let reads = Reads {
        nexts,
        outputs: read_outputs,
    };
    let wires = Wires {
        gates: steps,
        reads,
    };
    Ok(Circuit {
        inputs: Seq::from_vec(inputs),
        latches: Seq::from_vec(latches),
        outputs: Seq::from_vec(outputs),
        gates: Seq::from_vec(gates),
        symbols: Seq::from_vec(symbols),
        wires,
    })
}

impl Circuit {
    ghost use Rattle.omega_circuit.specs.Circuit.{IsCircuit};
    ghost use Rattle.omega_circuit.specs.Rounds.{first_latches};

    /// Returns the literals of the inputs.
    pub fn inputs(&self) -> &[u32]
        ensures { result.now ≡ self.now.inputs }
    {
        self.inputs.as_slice()
    }

    /// Returns the latches.
    pub fn latches(&self) -> &[Latch]
        ensures { result.now ≡ self.now.latches }
    {
        self.latches.as_slice()
    }

    /// Returns the literals of the outputs.
    pub fn outputs(&self) -> &[u32]
        ensures { result.now ≡ self.now.outputs }
    {
        self.outputs.as_slice()
    }

    /// Returns the gates, in the order in which they were given.
    pub fn gates(&self) -> &[Gate]
        ensures { result.now ≡ self.now.gates }
    {
        self.gates.as_slice()
    }

    /// Returns the symbols, in the order in which they were given.
    pub fn symbols(&self) -> &[Symbol]
        ensures { result.now ≡ self.now.symbols }
    {
        self.symbols.as_slice()
    }

    /// Returns the values of the latches in the first round.
    pub fn first_latches(&self, alloc: Global) -> Result<Vec<bool>, AllocError>
        ensures { IfOk result (λ values. values.items ≡ first_latches self.now) }
    {
        self.latches
            .as_slice()
            .iter()
            .map(|latch| latch.reset == 1)
            .collect(alloc)
    }

    /// States what each circuit keeps. Does nothing: it hands on the type's invariant.
    pub fn is_circuit(&self)
        ensures { IsCircuit self.now }
    {
        // A field is read, since only then a proof knows the invariant.
        let _gates = &self.gates;
    }
}
