//! Rounds of a state in which some inputs are unknown.

ghost use Rattle.std.specs.Prelude.{◌≡◌, ◌<◌, ◌≤◌, ◌/◌, ℕ, Bool, IfNone, IfSome, OnOk, length};
ghost use Rattle.omega_circuit.specs.Limits.{most_variables};
ghost use Rattle.omega_circuit.specs.Rounds.{gate_value, literal_value};
ghost use Rattle.omega_circuit_automaton.specs.declared.ternary.Ternary.TheVariants.{Unknown};
ghost use Rattle.omega_circuit_automaton.specs.private.Lanes.{AreHeld, IsSound, IsSoundIn, KeepsHeld};
ghost use Rattle.omega_circuit_automaton.specs.private.Ternary.{AreGates, AreInputs, Matches, ternary_at};

use crate::gate_order::variable_count;
use crate::lanes::Lane;
use crate::table::Table;
use crate::ternary::Ternary;
use omega_circuit::{Circuit, Gate};
use std::alloc::{AllocError, Global};

/// Evaluates the gates that are left in a state, in memory that is used again and again.
#[derive(Drop)]
pub(crate) struct Evaluator {
    /// The places of the gates that are left to evaluate in the state, each after those that it uses.
    residue: Vec<usize>,
    /// What the inputs make known.
    pub(crate) table: Table,
    /// By the place of an input, how many unknown values that are read at the end of a round keep it.
    votes: Vec<u32>,
}

impl Evaluator {
    /// Returns an evaluator of a circuit. Takes memory by the greatest variable.
    pub(crate) fn new(alloc: Global, circuit: &Circuit) -> Result<Evaluator, AllocError> {
        let residue = Vec::new(alloc);
        let table = Table::new(alloc, variable_count(circuit))?;
        let votes = vec![in alloc; 0; circuit.inputs().len()]?;
        Ok(Evaluator {
            residue,
            table,
            votes,
        })
    }

    /// Begins with a state.
    pub(crate) fn begin(&mut self, lane: Lane<'_>) -> Result<(), AllocError> {
        self.residue.clear();
        for gate in lane.open.iter().rev() {
            if gate.bits & lane.bit != 0 {
                self.residue.push(gate.place)?;
            }
        }
        Ok(())
    }

    /// Evaluates the rounds of the state in which the inputs are known as in `cube`.
    pub(crate) fn evaluate(
        &mut self,
        circuit: &Circuit,
        lane: Lane<'_>,
        cube: &[Ternary],
    ) -> Result<(), AllocError>
        ensures { OnOk result ((round : ℕ → Bool) → AreGates circuit.now.gates round
            → AreInputs circuit.now.inputs cube.now round
            → IsSoundIn lane.entry.bit round lane.entry.known.now
            → AreHeld round self.new.table.entries.items) }
    {
        circuit.is_circuit();
        self.table.forget();
        self.table.put_inputs(circuit.inputs(), cube)?;
        self.table
            .evaluate_gates(circuit.gates(), self.residue.as_slice(), lane)?;
        Ok(())
    }

    /// Returns the place of an input that is unknown in `cube`, on which of the unknown outputs and next values most
    /// keep, or `None` if no input is unknown. Which one it is is no matter of what is proved.
    pub(crate) fn input_to_split(
        &mut self,
        circuit: &Circuit,
        lane: Lane<'_>,
        cube: &[Ternary],
    ) -> Option<usize>
        ensures low { IfSome result (λ k. k < length cube.now) }
        ensures some { IfSome result (λ k. ternary_at cube.now k ≡ Unknown) }
        ensures none { IfNone result ((k : ℕ) → k < length cube.now → ternary_at cube.now k ≡ Unknown → ⊥) }
    {
        self.votes.as_mut_slice().fill(0);
        for literal in circuit.outputs() {
            self.vote(lane, *literal);
        }
        for latch in circuit.latches() {
            self.vote(lane, latch.next);
        }
        most_voted(self.votes.as_slice(), cube)
    }

    /// Counts the input of a literal, if its value is unknown.
    fn vote(&mut self, lane: Lane<'_>, literal: u32) {
        if self.table.value_of(lane, literal) != Ternary::Unknown {
            return;
        }
        let origin = self.table.origin_at(literal);
        if let Some(count) = self.votes.get_mut(origin as usize) {
            *count = count.saturating_add(1);
        }
    }
}

impl Table {
    /// Puts what is known of the inputs.
    fn put_inputs(&mut self, inputs: &[u32], cube: &[Ternary]) -> Result<(), AllocError>
        requires { length inputs.now ≤ most_variables }
        ensures { OnOk result (KeepsHeld (AreInputs inputs.now cube.now) self.old.entries.items
            self.new.entries.items) }
    {
        for k in 0..inputs.len() {
            let value = input_value(cube, k);
            self.put_origin(inputs[k] / 2, k as u32);
            self.put(inputs[k] / 2, value)?;
        }
        Ok(())
    }

    /// Evaluates the gates at some places in this order.
    fn evaluate_gates(
        &mut self,
        gates: &[Gate],
        places: &[usize],
        lane: Lane<'_>,
    ) -> Result<(), AllocError>
        ensures { OnOk result ((round : ℕ → Bool) → AreGates gates.now round
            → IsSoundIn lane.entry.bit round lane.entry.known.now → AreHeld round self.old.entries.items
            → AreHeld round self.new.entries.items) }
    {
        for place in places {
            if let Some(gate) = gates.get(*place) {
                self.evaluate_gate(lane, *gate)?;
            }
        }
        Ok(())
    }

    /// Evaluates a gate. If it is unknown, it may depend on the input of its unknown operand, of two on that of the
    /// greater literal.
    fn evaluate_gate(&mut self, lane: Lane<'_>, gate: Gate) -> Result<(), AllocError>
        ensures { OnOk result ((round : ℕ → Bool) → round (gate.literal / 2) ≡ gate_value round gate
            → IsSoundIn lane.entry.bit round lane.entry.known.now → AreHeld round self.old.entries.items
            → AreHeld round self.new.entries.items) }
    {
        let left = self.value_of(lane, gate.left);
        let right = self.value_of(lane, gate.right);
        let is_right_kept = left != Ternary::Unknown
            || (right == Ternary::Unknown && gate.left < gate.right);
        let origin = self.origin_at(if is_right_kept { gate.right } else { gate.left });
        self.put_origin(gate.literal / 2, origin);
        self.put(gate.literal / 2, left.and(right))?;
        Ok(())
    }

    /// Returns what is known of a literal.
    pub(crate) fn value_of(&self, lane: Lane<'_>, literal: u32) -> Ternary
        ensures { (round : ℕ → Bool)
            → IsSound lane.entry.bit round lane.entry.known.now self.now.entries.items
            → Matches result (literal_value round literal) }
    {
        let value = self.value_in(lane, literal / 2);
        if literal % 2 == 0 { value } else { value.not() }
    }

    /// Returns what is known of a variable.
    fn value_in(&self, lane: Lane<'_>, variable: u32) -> Ternary
        ensures { (round : ℕ → Bool)
            → IsSound lane.entry.bit round lane.entry.known.now self.now.entries.items
            → Matches result (round variable) }
    {
        match lane.value_at(variable) {
            Ternary::Unknown => self.value_at(variable),
            known => known,
        }
    }
}

/// Returns what a cube says of the input at a place.
fn input_value(cube: &[Ternary], place: usize) -> Ternary
    ensures { result ≡ ternary_at cube.now place }
{
    cube.get(place).copied().unwrap_or(Ternary::Unknown)
}

/// Returns the place with most votes of those that are unknown in `cube`, or `None` if none is unknown.
fn most_voted(votes: &[u32], cube: &[Ternary]) -> Option<usize>
    ensures low { IfSome result (λ k. k < length cube.now) }
    ensures some { IfSome result (λ k. ternary_at cube.now k ≡ Unknown) }
    ensures none { IfNone result ((k : ℕ) → k < length cube.now → ternary_at cube.now k ≡ Unknown → ⊥) }
{
    let mut best = None;
    let mut most = 0;
    for k in 0..cube.len() {
        let count = votes.get(k).copied().unwrap_or(0);
        if cube[k] == Ternary::Unknown && (best.is_none() || count > most) {
            best = Some(k);
            most = count;
        }
    }
    best
}
