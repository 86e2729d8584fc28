//! The gates of a machine.

use crate::choice::Choice;
use crate::gates::{FALSE, GateTable, TRUE};
use crate::machine::Machine;
use crate::parting::Parting;
use omega_circuit::MOST_VARIABLES;
use omega_graph_search::{NumberTable, number_of};
use omega_text::{Refusal, TaskFault};
use std::alloc::{AllocError, Global};

/// Gates, and the literals that are read at the end of a round.
#[derive(Drop)]
pub(crate) struct Network {
    pub(crate) gates: GateTable,
    /// The next literals of the latches.
    pub(crate) nexts: Vec<u32>,
    pub(crate) outputs: Vec<u32>,
}

/// A value that each step of a machine determines.
#[derive(Clone, Copy)]
enum Bit {
    /// Whether an output is set.
    Output(u32),
    /// The bit of the next state's number at a place, the lowest bit being at 0.
    State(u32),
}

/// Returns the network of a machine. The bits of the state's number are in latches, the lowest first, and the variables
/// are those of the inputs, of the latches and of the gates.
///
/// Each bit is a tree of multiplexers: by the inputs in each state, and then by the latches. Numbers that no state has
/// are free. Takes the time of going through all choices once for each bit. Fails with [`TaskFault::TooLarge`] past
/// [`MOST_VARIABLES`].
pub(crate) fn network_of(
    alloc: Global,
    machine: &Machine,
    parting: &Parting,
) -> Result<Network, Refusal> {
    let latches = bit_count(machine.roots.len());
    let inputs = number_of(parting.inputs.len());
    let first = inputs.saturating_add(latches).saturating_add(1);
    if first > MOST_VARIABLES {
        return Err(Refusal::Task(TaskFault::TooLarge));
    }
    let mut network = Network {
        gates: GateTable::new(alloc, first),
        nexts: Vec::new(alloc),
        outputs: Vec::new(alloc),
    };
    for output in &parting.outputs {
        let bit = Bit::Output(*output);
        let literal = network.literal_of(alloc, machine, parting, latches, bit)?;
        network.outputs.push(literal)?;
    }
    for place in 0..latches {
        let bit = Bit::State(place);
        let literal = network.literal_of(alloc, machine, parting, latches, bit)?;
        network.nexts.push(literal)?;
    }
    Ok(network)
}

/// Returns the least number of bits that tell `count` numbers apart.
fn bit_count(count: usize) -> u32 {
    if count == 0 {
        return 0;
    }
    usize::BITS.saturating_sub((count - 1).leading_zeros())
}

impl Network {
    /// Returns the literal of a bit.
    fn literal_of(
        &mut self,
        alloc: Global,
        machine: &Machine,
        parting: &Parting,
        latches: u32,
        bit: Bit,
    ) -> Result<u32, Refusal> {
        let by_choice = self.literals_by_choice(alloc, machine, parting, bit)?;
        let mut literals = Vec::with_capacity(alloc, machine.roots.len())?;
        for root in &machine.roots {
            literals.push(by_choice.at(*root))?;
        }
        for place in 0..latches {
            let selector = literal_at(number_of(parting.inputs.len()).saturating_add(place));
            literals = self.halved(alloc, selector, literals.as_slice())?;
        }
        Ok(literals.first().copied().unwrap_or(FALSE))
    }

    /// Returns by choice the literal of a bit, over the inputs.
    fn literals_by_choice(
        &mut self,
        alloc: Global,
        machine: &Machine,
        parting: &Parting,
        bit: Bit,
    ) -> Result<NumberTable, Refusal> {
        let mut literals = NumberTable::filled(alloc, machine.choices.len(), FALSE)?;
        for number in 0..machine.choices.len() {
            let literal = match machine.choices.at(number) {
                Some(Choice::Branch { input, low, high }) => {
                    let selector = literal_at(parting.places.at(input));
                    self.gates
                        .mux(selector, literals.at(high), literals.at(low))?
                }
                Some(Choice::Step { target, outputs }) => {
                    constant_of(bit_of_step(machine, bit, target, outputs))
                }
                None => FALSE,
            };
            literals.put(number_of(number), literal);
        }
        Ok(literals)
    }

    /// Returns the multiplexers of each two neighbours of `literals`, the second being read if `selector` is true. A
    /// last one without neighbour stays.
    fn halved(
        &mut self,
        alloc: Global,
        selector: u32,
        literals: &[u32],
    ) -> Result<Vec<u32>, Refusal> {
        let mut halves = Vec::with_capacity(alloc, literals.len() / 2 + 1)?;
        for pair in literals.chunks(2) {
            match pair {
                [low, high] => halves.push(self.gates.mux(selector, *high, *low)?)?,
                [low] => halves.push(*low)?,
                _ => {}
            }
        }
        Ok(halves)
    }
}

/// Whether a step sets a bit.
fn bit_of_step(machine: &Machine, bit: Bit, target: u32, outputs: u32) -> bool {
    match bit {
        Bit::Output(output) => machine.is_set(outputs, output),
        Bit::State(place) => target.checked_shr(place).unwrap_or(0) % 2 == 1,
    }
}

/// Returns the literal of a constant.
fn constant_of(value: bool) -> u32 {
    if value { TRUE } else { FALSE }
}

/// Returns the literal of the variable at a place among the inputs and the latches.
fn literal_at(place: u32) -> u32 {
    place.saturating_add(1).saturating_mul(2)
}
