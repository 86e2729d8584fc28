//! Which propositions are inputs and outputs.

ghost use Rattle.std.specs.Prelude.{◌≡◌, ◌≤◌, ◌∷◌, ◌++◌, [], IfOk, OnOk};
ghost use Rattle.std.specs.Prelude.{if◌then◌else◌, not};
ghost use Rattle.omega_circuit_encoder.specs.Names.{is_controlled, propositions_of};
ghost use Rattle.omega_hoa_automaton.specs.Limits.{most_propositions};

use omega_graph_search::{NONE, NumberTable, number_of};
use std::alloc::{AllocError, Global};

/// The propositions of a controller, each an input or an output of its circuit.
#[derive(Drop)]
pub(crate) struct Parting {
    /// The environment's propositions, in order.
    pub(crate) inputs: Vec<u32>,
    /// The system's propositions, in order.
    pub(crate) outputs: Vec<u32>,
    /// By proposition its place among the inputs, or [`NONE`].
    pub(crate) places: NumberTable,
}

impl Parting {
    /// Returns `count` propositions, parted: the system's are those that are `controlled`. Takes the product of both
    /// counts.
    pub(crate) fn of(alloc: Global, count: usize, controlled: &[u32]) -> Result<Parting, AllocError>
        requires { count ≤ most_propositions }
    {
        let inputs = propositions_of(alloc, false, count, controlled)?;
        let outputs = propositions_of(alloc, true, count, controlled)?;
        let mut places = NumberTable::filled(alloc, count, NONE)?;
        for (place, number) in inputs.iter().enumerate() {
            places.put(*number, number_of(place));
        }
        Ok(Parting {
            inputs,
            outputs,
            places,
        })
    }

    /// Whether a proposition is an input.
    pub(crate) fn is_input(&self, number: u32) -> bool {
        self.places.at(number) != NONE
    }
}

/// Returns those of the first propositions that are the system's, or, without `system`, the environment's.
pub(crate) fn propositions_of(
    alloc: Global,
    system: bool,
    count: usize,
    controlled: &[u32],
) -> Result<Vec<u32>, AllocError>
    requires { count ≤ most_propositions }
    ensures { IfOk result (λ numbers. numbers.items ≡ propositions_of system count controlled.now) }
{
    let mut numbers = Vec::new(alloc);
    for p in 0..count {
        push_if(&mut numbers, is_wanted(system, controlled, p), p as u32)?;
    }
    Ok(numbers)
}

/// Appends a number if `flag` is set.
fn push_if(numbers: &mut Vec<u32>, flag: bool, number: u32) -> Result<(), AllocError>
    ensures { OnOk result
        (numbers.new.items ≡ numbers.old.items ++ (if flag then number ∷ [] else [])) }
{
    if flag {
        numbers.push(number)?;
    }
    Ok(())
}

/// Whether a proposition is the system's, or, without `system`, the environment's.
fn is_wanted(system: bool, controlled: &[u32], p: usize) -> bool
    ensures { result
        ≡ if system then is_controlled controlled.now p else not (is_controlled controlled.now p) }
{
    if system {
        is_controlled(controlled, p)
    } else {
        !is_controlled(controlled, p)
    }
}

/// Whether the system controls a proposition.
fn is_controlled(controlled: &[u32], p: usize) -> bool
    ensures { result ≡ is_controlled controlled.now p }
{
    controlled.iter().any(|other| *other as usize == p)
}
