//! The gates that are left to evaluate in states: those that depend on inputs, and on which an output or a next value
//! of a latch depends. Which they are is no matter of what is proved: without one, more is unknown.

use crate::known::{Known, known_of};
use omega_circuit::Circuit;
use std::alloc::{AllocError, Global};

/// A gate that is left to evaluate.
#[derive(Clone, Copy, Debug)]
pub(crate) struct Open {
    /// The place of the gate.
    pub(crate) place: usize,
    /// The bits of the states in which it is left.
    pub(crate) bits: u64,
}

/// Finds the gates that are left to evaluate, in memory that is used again and again.
#[derive(Drop)]
pub(crate) struct Demand {
    /// By variable, the bits of the states in which an output, a next value of a latch or a gate that is left uses it.
    used: Vec<u64>,
    /// The gates that are left, each before those that it uses.
    pub(crate) open: Vec<Open>,
}

impl Demand {
    /// Returns the demand for nothing, with room for so many variables.
    pub(crate) fn new(alloc: Global, count: usize) -> Result<Demand, AllocError> {
        let used = vec![in alloc; 0; count]?;
        let open = Vec::new(alloc);
        Ok(Demand { used, open })
    }

    /// Finds the gates that are left in the states of these bits, if this is known of the variables and `order` has
    /// each gate after those that it uses. Takes linear time in the circuit.
    pub(crate) fn find(
        &mut self,
        circuit: &Circuit,
        order: &[usize],
        known: &[Known],
        bits: u64,
    ) -> Result<(), AllocError> {
        self.open.clear();
        self.used.as_mut_slice().fill(0);
        for literal in circuit.outputs() {
            self.note(*literal, bits);
        }
        for latch in circuit.latches() {
            self.note(latch.next, bits);
        }
        for place in order.iter().rev() {
            self.visit(circuit, *place, known)?;
        }
        Ok(())
    }

    /// Appends a gate with the states in which it is used and unknown, and notes what it uses there.
    fn visit(
        &mut self,
        circuit: &Circuit,
        place: usize,
        known: &[Known],
    ) -> Result<(), AllocError> {
        let Some(gate) = circuit.gates().get(place) else {
            return Ok(());
        };
        let variable = gate.literal / 2;
        let used = self.used.get(variable as usize).copied().unwrap_or(0);
        let bits = used & known_of(known, variable).unknown();
        if bits != 0 {
            self.note(gate.left, bits);
            self.note(gate.right, bits);
            self.open.push(Open { place, bits })?;
        }
        Ok(())
    }

    /// Notes that a literal is used in the states of these bits.
    fn note(&mut self, literal: u32, bits: u64) {
        if let Some(used) = self.used.get_mut(literal as usize / 2) {
            *used |= bits;
        }
    }
}
