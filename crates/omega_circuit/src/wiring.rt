//! Gates between numbered literals: in the place of a variable stands its number among the variables that are defined.

ghost use Rattle.std.specs.Prelude.{◌≤◌, ◌+◌, ◌/◌, All, IfNone, IfOk, IfSome, length};
ghost use Rattle.std.specs.List.{Contains};
ghost use Rattle.omega_circuit.specs.Limits.{most_variables};
ghost use Rattle.omega_circuit.specs.private.Numbers.{AreNets, AreNumbered, IsNumbered};
ghost use Rattle.omega_circuit.specs.declared.gate.Gate.{Gate};

use crate::gate::Gate;
use indexmap::IndexSet;
use std::alloc::{AllocError, Global};

/// What a circuit joins, by numbered literals.
#[derive(Debug, Drop)]
pub(crate) struct Wires {
    /// The gates.
    pub(crate) gates: Vec<Gate>,
    /// What is read at the end of a round.
    pub(crate) reads: Reads,
}

/// The numbered literals that are read at the end of a round.
#[derive(Debug, Drop)]
pub(crate) struct Reads {
    /// The next literals of the latches.
    pub(crate) nexts: Vec<u32>,
    /// The outputs.
    pub(crate) outputs: Vec<u32>,
}

/// Returns `gates` between numbered literals, their own variables numbered from `first` on, or `None` if an operand has
/// no variable among `variables`.
pub(crate) fn nets_of(
    alloc: Global,
    variables: &IndexSet<u32>,
    first: usize,
    gates: &[Gate],
) -> Result<Option<Vec<Gate>>, AllocError>
    requires few { length variables.now.keys ≤ most_variables + 1 }
    requires room { first + length gates.now ≤ most_variables + 1 }
    ensures some { IfOk result (λ found. IfSome found
        (λ nets. AreNets variables.now.keys first gates.now nets.items)) }
    ensures defined { IfOk result (λ found. IfSome found (λ nets. All (λ (gate : Gate).
        Contains variables.now.keys (gate.left / 2)
        × Contains variables.now.keys (gate.right / 2)) gates.now)) }
    ensures none { IfOk result (λ found. IfNone found (All (λ (gate : Gate).
        Contains variables.now.keys (gate.left / 2)
        × Contains variables.now.keys (gate.right / 2)) gates.now → ⊥)) }
{
    let mut nets = Vec::with_capacity(alloc, gates.len())?;
    for (k, gate) in gates.iter().enumerate() {
        let Some(left) = number_of(variables, gate.left) else {
            return Ok(None);
        };
        let Some(right) = number_of(variables, gate.right) else {
            return Ok(None);
        };
        let literal = 2 * (first + k) as u32;
        nets.push(Gate {
            literal,
            left,
            right,
        })?;
    }
    Ok(Some(nets))
}

/// Returns `literals` with the numbers of their variables, or `None` if one of them has no variable among `variables`.
pub(crate) fn numbers_of(
    alloc: Global,
    variables: &IndexSet<u32>,
    literals: &[u32],
) -> Result<Option<Vec<u32>>, AllocError>
    requires { length variables.now.keys ≤ most_variables + 1 }
    ensures some { IfOk result (λ found. IfSome found
        (λ numbers. AreNumbered variables.now.keys literals.now numbers.items)) }
    ensures none { IfOk result (λ found. IfNone found
        (All (λ literal. Contains variables.now.keys (literal / 2)) literals.now → ⊥)) }
{
    let mut numbers = Vec::with_capacity(alloc, literals.len())?;
    for literal in literals {
        let Some(number) = number_of(variables, *literal) else {
            return Ok(None);
        };
        numbers.push(number)?;
    }
    Ok(Some(numbers))
}

/// Returns `literal` with the number of its variable among `variables`, or `None` if it is not among them.
fn number_of(variables: &IndexSet<u32>, literal: u32) -> Option<u32>
    requires { length variables.now.keys ≤ most_variables + 1 }
    ensures some { IfSome result (IsNumbered variables.now.keys literal) }
    ensures none { IfNone result (Contains variables.now.keys (literal / 2) → ⊥) }
    ensures there { IfSome result (λ number. Contains variables.now.keys (literal / 2)) }
{
    let position = variables.get_index_of(&(literal / 2))?;
    Some(2 * position as u32 + literal % 2)
}
