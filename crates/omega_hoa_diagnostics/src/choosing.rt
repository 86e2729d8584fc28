//! The first two edges of a state that can be taken together.

ghost use Rattle.std.specs.Prelude.{◌≡◌, ◌<◌, false, length, IfOk, IsOkUnless, IsTrue};
ghost use Rattle.omega_hoa_label.specs.Label.{conjunction};
ghost use Rattle.omega_hoa_satisfiable.specs.Satisfiable.{IsSatisfiable};
ghost use Rattle.omega_hoa_diagnostics.specs.Choices.{IsPassedLabel};
ghost use Rattle.omega_hoa_diagnostics.specs.private.Found.{IsChoiceFound, IsSecondFound};

use omega_hoa_edges::{EdgeLabel, can_hold_together};
use omega_text::Refusal;
use std::alloc::Global;

/// Two edges of a state, by their indices among its edges.
#[derive(Clone, Copy)]
pub(crate) struct Choice {
    pub(crate) first: usize,
    pub(crate) second: usize,
}

/// Returns the first two edges with these labels that can be taken together, by the first and then by the second. Two
/// edges are passed over if that is not decided.
pub(crate) fn first_choice(
    alloc: Global,
    labels: &[EdgeLabel<'_>],
) -> Result<Option<Choice>, Refusal>
    ensures choice { IfOk result (IsChoiceFound labels.now) }
    ensures memory { IsOkUnless result Refusal.Memory }
{
    for first in 0..labels.len() {
        if let Some(second) = second_with(alloc, labels, first)? {
            return Ok(Some(Choice { first, second }));
        }
    }
    Ok(None)
}

/// Returns the first edge after `first` that can be taken together with it, as `first_choice` does.
fn second_with(
    alloc: Global,
    labels: &[EdgeLabel<'_>],
    first: usize,
) -> Result<Option<usize>, Refusal>
    requires { first < length labels.now }
    ensures second { IfOk result (IsSecondFound labels.now first) }
    ensures memory { IsOkUnless result Refusal.Memory }
{
    for second in first + 1..labels.len() {
        if are_together(alloc, &labels[first], &labels[second])? {
            return Ok(Some(second));
        }
    }
    Ok(None)
}

/// Whether two labels can be true together; false also if that is not decided.
fn are_together(alloc: Global, one: &EdgeLabel<'_>, other: &EdgeLabel<'_>) -> Result<bool, Refusal>
    ensures together { IfOk result
        (λ told. IsTrue told → IsSatisfiable (conjunction one.now other.now)) }
    ensures passed { IfOk result
        (λ told. told ≡ false → IsPassedLabel (conjunction one.now other.now)) }
    ensures memory { IsOkUnless result Refusal.Memory }
{
    match can_hold_together(alloc, one.get(), other.get()) {
        Ok(possible) => Ok(possible),
        Err(Refusal::Memory) => Err(Refusal::Memory),
        Err(_) => Ok(false),
    }
}
