//! The variables that parts define, each of which has to be defined once.

ghost use Rattle.std.specs.Prelude.{◌≡◌, ◌/◌, ◌++◌, IfNone, IfOk, IfSome, OnOk, map};
ghost use Rattle.omega_circuit.specs.Circuit.{AreDefinitions, defined_literals, variable_of};
ghost use Rattle.omega_circuit.specs.Faults.{value_of};
ghost use Rattle.omega_circuit.specs.declared.gate.Gate.{Gate};
ghost use Rattle.omega_circuit.specs.declared.latch.Latch.{Latch};

use crate::gate::Gate;
use crate::latch::Latch;
use crate::parts::CircuitParts;
use indexmap::IndexSet;
use std::alloc::{AllocError, Global};

/// Returns the literals that `parts` define: 0, and those of inputs, latches and gates.
pub(crate) fn defined_literals(alloc: Global, parts: &CircuitParts) -> Result<Vec<u32>, AllocError>
    ensures { IfOk result (λ literals. literals.items ≡ defined_literals (value_of parts.now)) }
{
    let mut literals = Vec::new(alloc);
    literals.push(0)?;
    literals.extend_from_slice(parts.inputs.as_slice())?;
    push_latches(&mut literals, parts.latches.as_slice())?;
    push_gates(&mut literals, parts.gates.as_slice())?;
    Ok(literals)
}

/// Appends the literals of latches.
pub(crate) fn push_latches(literals: &mut Vec<u32>, latches: &[Latch]) -> Result<(), AllocError>
    ensures { OnOk result (literals.new.items
        ≡ literals.old.items ++ map (λ (latch : Latch). latch.literal) latches.now) }
{
    for latch in latches {
        literals.push(latch.literal)?;
    }
    Ok(())
}

/// Appends the literals of gates.
pub(crate) fn push_gates(literals: &mut Vec<u32>, gates: &[Gate]) -> Result<(), AllocError>
    ensures { OnOk result (literals.new.items
        ≡ literals.old.items ++ map (λ (gate : Gate). gate.literal) gates.now) }
{
    for gate in gates {
        literals.push(gate.literal)?;
    }
    Ok(())
}

/// Returns the variables of `literals`, or `None` if a literal is odd or two have one variable.
pub(crate) fn variables_of(
    alloc: Global,
    literals: &[u32],
) -> Result<Option<IndexSet<u32>>, AllocError>
    ensures some { IfOk result (λ found. IfSome found
        (λ variables. (variables.keys ≡ map variable_of literals.now) × AreDefinitions literals.now)) }
    ensures none { IfOk result (λ found. IfNone found (AreDefinitions literals.now → ⊥)) }
{
    let mut variables = IndexSet::new(alloc);
    for literal in literals {
        if *literal % 2 != 0 {
            return Ok(None);
        }
        if !variables.insert(*literal / 2)? {
            return Ok(None);
        }
    }
    Ok(Some(variables))
}
