//! Labels of edges, as a text writes them.

ghost use Rattle.std.specs.Prelude.{◌≡◌, ◌≤◌, ◌+◌, ◌++◌, ◌&&◌, ℕ, Bool, Some, IfOk, length, map};
ghost use Rattle.omega_hoa_automaton.specs.Limits.{most_propositions};
ghost use Rattle.omega_circuit_automaton.specs.private.Cuts.{agrees, fits};
ghost use Rattle.omega_circuit_automaton.specs.private.Labels.{IsConjunction, IsLabelAt, conjunction_of};
ghost use Rattle.omega_circuit_automaton.specs.private.Ternary.{known};

use crate::ternary::Ternary;
use omega_hoa_label::RawLabel;
use omega_text::Refusal;
use std::alloc::Global;

/// Returns the label that is true where the inputs fit `cube` and the outputs, which are numbered after the inputs,
/// have these values: the conjunction of their literals in order, or `t` if there are none. Fails with
/// [AutomatonFault::TooDeep] if it is too deep.
pub(crate) fn edge_label(
    alloc: Global,
    cube: &[Ternary],
    outputs: &[bool],
) -> Result<RawLabel, Refusal>
    requires { length cube.now + length outputs.now ≤ most_propositions }
    ensures { IfOk result (IsLabelAt 2 (λ letter. fits (cube.now ++ map known outputs.now) letter)) }
{
    let inputs = cube_label(alloc, cube)?;
    let label = with_outputs(alloc, inputs, cube, outputs)?;
    match label {
        None => RawLabel::constant(alloc, true),
        Some(label) => Ok(label),
    }
}

/// Returns the conjunction of the literals of a cube, or `None` if there are none.
fn cube_label(alloc: Global, cube: &[Ternary]) -> Result<Option<RawLabel>, Refusal>
    requires { length cube.now ≤ most_propositions }
    ensures { IfOk result (IsConjunction (λ letter. fits cube.now letter)) }
{
    let mut label = None;
    for k in 0..cube.len() {
        let value = cube[k];
        label = with_literal(alloc, label, k as u32, value)?;
    }
    Ok(label)
}

/// Returns the label of a cube with the literals of outputs, which are numbered after the inputs.
fn with_outputs(
    alloc: Global,
    inputs: Option<RawLabel>,
    cube: &[Ternary],
    outputs: &[bool],
) -> Result<Option<RawLabel>, Refusal>
    requires few { length cube.now + length outputs.now ≤ most_propositions }
    requires label { IsConjunction (λ letter. fits cube.now letter) inputs }
    ensures { IfOk result (IsConjunction (λ letter. fits (cube.now ++ map known outputs.now) letter)) }
{
    let mut label = inputs;
    for k in 0..outputs.len() {
        let number = (cube.len() + k) as u32;
        let value = outputs[k];
        label = with_literal(alloc, label, number, Ternary::of(value))?;
    }
    Ok(label)
}

/// Returns a label with one literal more, if the value of the proposition is known.
fn with_literal(
    alloc: Global,
    label: Option<RawLabel>,
    number: u32,
    value: Ternary,
) -> Result<Option<RawLabel>, Refusal>
    ensures { IfOk result (λ more. (holds : (ℕ → Bool) → Bool) → IsConjunction holds label
        → IsConjunction (λ letter. holds letter && agrees value (letter number)) more) }
{
    match value {
        Ternary::Unknown => Ok(label),
        Ternary::True => conjunction(label, RawLabel::proposition(alloc, number)?),
        Ternary::False => conjunction(label, RawLabel::proposition(alloc, number)?.not()?),
    }
}

/// Returns the conjunction of two labels; `None` is true at each letter.
fn conjunction(label: Option<RawLabel>, more: RawLabel) -> Result<Option<RawLabel>, Refusal>
    ensures { IfOk result (λ both. both ≡ Some (conjunction_of label more)) }
{
    match label {
        None => Ok(Some(more)),
        Some(label) => Ok(Some(label.and(more)?)),
    }
}
