//! What is known of the variables in up to 64 states at once, if no input is known.

ghost use Rattle.std.specs.Prelude.{◌≡◌, ◌<◌, ◌≤◌, ◌/◌, ◌^◌, ℕ, Bool, length, OnOk};
ghost use Rattle.omega_circuit.specs.Rounds.{gate_value, literal_value};
ghost use Rattle.omega_circuit_automaton.specs.Valuations.{latch_values, valuation_at};
ghost use Rattle.omega_circuit_automaton.specs.private.Lanes.{Allows, AreLanesOf, IsAmong, IsSoundIn};
ghost use Rattle.omega_circuit_automaton.specs.private.Lanes.{KeepsSoundIn};
ghost use Rattle.omega_circuit_automaton.specs.private.Ternary.{AreGates, Matches};

use crate::demand::{Demand, Open};
use crate::gate_order::{gate_order, variable_count};
use crate::known::{Known, known_of};
use crate::ternary::Ternary;
use omega_circuit::{Circuit, Gate, Latch};
use omega_text::Seq;
use std::alloc::{AllocError, Global};

/// How many states are evaluated at once: each has a bit of a word.
pub(crate) const MOST_LANES: usize = 64;

/// Evaluates the gates of a circuit in up to 64 states at once, in memory that is used again and again.
#[derive(Drop)]
pub(crate) struct Lanes {
    /// The places of the gates, each after those that it uses.
    order: Vec<usize>,
    /// By variable, what is known of it.
    pub(crate) known: Vec<Known>,
    /// The gates that are left to evaluate.
    demand: Demand,
}

/// One of the states that are evaluated at once.
#[derive(Clone, Copy)]
pub(crate) struct Lane<'a> {
    /// By variable, what is known of it in all of these states.
    pub(crate) known: &'a [Known],
    /// The gates that are left to evaluate in some of them, each before those that it uses.
    pub(crate) open: &'a [Open],
    /// The bit of the state.
    pub(crate) bit: u64,
}

impl Lanes {
    /// Returns lanes of no state. Takes memory by the greatest variable.
    pub(crate) fn new(alloc: Global, circuit: &Circuit) -> Result<Lanes, AllocError> {
        let order = gate_order(alloc, circuit)?;
        let count = variable_count(circuit);
        let known = vec![in alloc; Known::nothing(); count]?;
        let demand = Demand::new(alloc, count)?;
        Ok(Lanes {
            order,
            known,
            demand,
        })
    }

    /// Evaluates the gates in the states with these valuations of the latches.
    pub(crate) fn evaluate(
        &mut self,
        circuit: &Circuit,
        valuations: &[Seq<bool>],
    ) -> Result<(), AllocError>
        requires { length valuations.now ≤ 64 }
        ensures { OnOk result (AreLanesOf circuit.now valuations.now self.new.known.items) }
    {
        evaluate_states(
            self.known.as_mut_slice(),
            circuit,
            self.order.as_slice(),
            valuations,
        );
        let bits = bits_below(valuations.len());
        self.demand.find(circuit, self.order.as_slice(), self.known.as_slice(), bits)?;
        Ok(())
    }

    /// Returns one of the states.
    pub(crate) fn lane(&self, lane: usize) -> Lane<'_>
        requires { lane < 64 }
        ensures bit { result.bit ≡ 2 ^ lane }
        ensures known { result.known.now ≡ self.now.known.items }
    {
        Lane {
            known: self.known.as_slice(),
            open: self.demand.open.as_slice(),
            bit: bit_of(lane),
        }
    }
}

impl<'a> Lane<'a> {
    /// Returns what is known of a variable in the state.
    pub(crate) fn value_at(self, variable: u32) -> Ternary
        ensures { (round : ℕ → Bool) → IsSoundIn self.entry.bit round self.entry.known.now
            → Matches result (round variable) }
    {
        known_of(self.known, variable).at(self.bit)
    }
}

/// Returns the bit of a state.
fn bit_of(lane: usize) -> u64
    requires { lane < 64 }
    ensures { result ≡ 2 ^ lane }
{
    1 << lane
}

/// Returns the bits of so many states.
fn bits_below(count: usize) -> u64 {
    if count < MOST_LANES {
        (1 << count) - 1
    } else {
        u64::MAX
    }
}

/// Evaluates the gates in the states with these valuations of the latches.
fn evaluate_states(
    known: &mut [Known],
    circuit: &Circuit,
    order: &[usize],
    valuations: &[Seq<bool>],
)
    requires { length valuations.now ≤ 64 }
    ensures { AreLanesOf circuit.now valuations.now known.new }
{
    forget(known);
    put(known, 0, Known::nowhere());
    put_valuations(known, circuit.latches(), valuations);
    evaluate_gates(known, circuit.gates(), order);
}

/// Forgets all values.
fn forget(known: &mut [Known])
    ensures { (bit : ℕ) (round : ℕ → Bool) → IsSoundIn bit round known.new }
{
    known.fill(Known::nothing());
}

/// Puts the values of the latches in some states.
fn put_valuations(known: &mut [Known], latches: &[Latch], valuations: &[Seq<bool>])
    requires { length valuations.now ≤ 64 }
    ensures { (lane : ℕ) → lane < length valuations.now
        → KeepsSoundIn (2 ^ lane) (λ round. latch_values latches.now round ≡ valuation_at valuations.now lane)
        known.old known.new }
{
    for lane in 0..valuations.len() {
        put_latches(known, latches, valuations[lane].as_slice(), bit_of(lane));
    }
}

/// Puts the values of the latches in the state of a bit.
fn put_latches(known: &mut [Known], latches: &[Latch], values: &[bool], bit: u64)
    ensures { (other : ℕ)
        → KeepsSoundIn other (λ round. IsAmong other bit → latch_values latches.now round ≡ values.now)
        known.old known.new }
{
    for k in 0..latches.len() {
        if let Some(value) = values.get(k) {
            put_latch(known, latches[k].literal / 2, *value, bit);
        }
    }
}

/// Puts the value of a variable in the state of a bit.
fn put_latch(known: &mut [Known], variable: u32, value: bool, bit: u64)
    ensures { (other : ℕ) → KeepsSoundIn other (λ round. IsAmong other bit → round variable ≡ value)
        known.old known.new }
{
    let value = known_of(known, variable).with(bit, value);
    put(known, variable, value);
}

/// Evaluates the gates at some places in this order.
fn evaluate_gates(known: &mut [Known], gates: &[Gate], order: &[usize])
    ensures { (bit : ℕ) → KeepsSoundIn bit (AreGates gates.now) known.old known.new }
{
    for place in order {
        if let Some(gate) = gates.get(*place) {
            evaluate_gate(known, *gate);
        }
    }
}

/// Evaluates a gate.
fn evaluate_gate(known: &mut [Known], gate: Gate)
    ensures { (bit : ℕ) → KeepsSoundIn bit (λ round. round (gate.literal / 2) ≡ gate_value round gate)
        known.old known.new }
{
    let value = gate_known(known, gate);
    put(known, gate.literal / 2, value);
}

/// Puts what is known of a variable.
fn put(known: &mut [Known], variable: u32, value: Known)
    ensures { (bit : ℕ) → KeepsSoundIn bit (λ round. Allows value bit (round variable)) known.old known.new }
{
    let place = variable as usize;
    if place < known.len() {
        known[place] = value;
    }
}

/// Returns what is known of a literal.
fn literal_known(known: &[Known], literal: u32) -> Known
    ensures { (bit : ℕ) (round : ℕ → Bool) → IsSoundIn bit round known.now
        → Allows result bit (literal_value round literal) }
{
    let value = known_of(known, literal / 2);
    if literal % 2 == 0 { value } else { value.not() }
}

/// Returns what is known of a gate. A literal and its negation are never both true.
fn gate_known(known: &[Known], gate: Gate) -> Known
    ensures { (bit : ℕ) (round : ℕ → Bool) → IsSoundIn bit round known.now
        → Allows result bit (gate_value round gate) }
{
    if gate.left / 2 == gate.right / 2 && gate.left != gate.right {
        return Known::nowhere();
    }
    let left = literal_known(known, gate.left);
    let right = literal_known(known, gate.right);
    left.and(right)
}
