//! An order in which gates are evaluated. It is no matter of what is proved: in a wrong order more is unknown.

use omega_circuit::{Circuit, Gate};
use std::alloc::{AllocError, Global};

/// Returns the places of the gates of a circuit, each after those that it uses (Kahn 1962). Takes linear time, and
/// memory by the greatest variable.
pub(crate) fn gate_order(alloc: Global, circuit: &Circuit) -> Result<Vec<usize>, AllocError> {
    let gates = circuit.gates();
    let mut sorter = Sorter::new(alloc, variable_count(circuit), gates)?;
    sorter.known.push(0)?;
    for literal in circuit.inputs() {
        sorter.known.push(*literal / 2)?;
    }
    for latch in circuit.latches() {
        sorter.known.push(latch.literal / 2)?;
    }
    for at in 0..sorter.first.len() {
        let Some(variable) = sorter.known.get(at).copied() else {
            break;
        };
        sorter.release(variable, gates)?;
    }
    Ok(sorter.order)
}

/// Returns one more than the greatest variable that a circuit defines.
pub(crate) fn variable_count(circuit: &Circuit) -> usize {
    let mut greatest = 0;
    for literal in circuit.inputs() {
        greatest = greatest.max(*literal / 2);
    }
    for latch in circuit.latches() {
        greatest = greatest.max(latch.literal / 2);
    }
    for gate in circuit.gates() {
        greatest = greatest.max(gate.literal / 2);
    }
    greatest as usize + 1
}

/// The operands of gates that wait for a variable, in linked lists. The operand `k` of the gate at a place has the
/// number `2 place + k + 1`, and 0 ends a list.
#[derive(Drop)]
struct Sorter {
    /// By variable, the first operand that waits for it.
    first: Vec<usize>,
    /// By operand, less 1, the next operand that waits for the same variable.
    next: Vec<usize>,
    /// By gate, how many of its operands wait.
    waiting: Vec<u8>,
    /// The variables whose values are known, in the order in which they became so.
    known: Vec<u32>,
    /// The places of gates whose operands are known.
    order: Vec<usize>,
}

impl Sorter {
    /// Returns a sorter in which all operands wait.
    fn new(alloc: Global, variables: usize, gates: &[Gate]) -> Result<Sorter, AllocError> {
        let first = vec![in alloc; 0; variables]?;
        let next = Vec::with_capacity(alloc, gates.len().saturating_mul(2))?;
        let waiting = vec![in alloc; 2; gates.len()]?;
        let order = Vec::with_capacity(alloc, gates.len())?;
        let mut sorter = Sorter {
            first,
            next,
            waiting,
            known: Vec::new(alloc),
            order,
        };
        for gate in gates {
            sorter.push(gate.left / 2)?;
            sorter.push(gate.right / 2)?;
        }
        Ok(sorter)
    }

    /// Appends an operand, which waits for a variable.
    fn push(&mut self, variable: u32) -> Result<(), AllocError> {
        let after = self.first.get(variable as usize).copied().unwrap_or(0);
        self.next.push(after)?;
        if let Some(first) = self.first.get_mut(variable as usize) {
            *first = self.next.len();
        }
        Ok(())
    }

    /// Lets the operands that wait for a variable wait no longer.
    fn release(&mut self, variable: u32, gates: &[Gate]) -> Result<(), AllocError> {
        let mut operand = self.first.get(variable as usize).copied().unwrap_or(0);
        for _ in 0..self.next.len() {
            if operand == 0 {
                break;
            }
            self.release_gate((operand - 1) / 2, gates)?;
            operand = self.next.get(operand - 1).copied().unwrap_or(0);
        }
        Ok(())
    }

    /// Lets one operand of a gate wait no longer. After the other the gate is next in the order.
    fn release_gate(&mut self, place: usize, gates: &[Gate]) -> Result<(), AllocError> {
        let mut left = 0;
        if let Some(waiting) = self.waiting.get_mut(place) {
            *waiting = waiting.saturating_sub(1);
            left = *waiting;
        }
        if left == 0 {
            self.order.push(place)?;
            if let Some(gate) = gates.get(place) {
                self.known.push(gate.literal / 2)?;
            }
        }
        Ok(())
    }
}
