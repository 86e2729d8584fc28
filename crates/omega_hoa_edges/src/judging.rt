//! Whether two labels can be true together.

ghost use Rattle.std.specs.Prelude.{◌↔◌, IsTrue, IfErr, IfOk, OnOk};
ghost use Rattle.omega_hoa_label.specs.Label.{conjunction};
ghost use Rattle.omega_hoa_label.specs.Shape.{FitsALabel};
ghost use Rattle.omega_hoa_satisfiable.specs.Satisfiable.{IsSatisfiable};
ghost use Rattle.omega_hoa_edges.specs.Fitting.{IsUnjudged};

use crate::fitting::fitting_conjunction;
use omega_hoa_label::Label;
use omega_hoa_satisfiable::{is_satisfiable, satisfiable_together};
use omega_text::Refusal;
use std::alloc::Global;

/// The most atoms and operators of a small label. Two small labels together are never too deep, as no label is deeper
/// than it has atoms and operators.
pub(crate) const MOST_SMALL: usize = 127;

/// Whether two labels can be true together. Fails as `is_satisfiable` does for their conjunction, and with
/// [TaskFault::TooLarge] if that is deeper than `MOST_DEPTH` or has over `MOST_SIZE` atoms and operators.
///
/// Two labels with at most 127 atoms and operators each, which mention at most `MOST_MENTIONED` propositions together,
/// are judged without memory.
pub fn can_hold_together(alloc: Global, one: &Label, other: &Label) -> Result<bool, Refusal>
    ensures judged { IfOk result
        (λ possible. IsTrue possible ↔ IsSatisfiable (conjunction one.now other.now)) }
    ensures fits { OnOk result (FitsALabel (conjunction one.now other.now)) }
    ensures err { IfErr result (IsUnjudged (conjunction one.now other.now)) }
{
    if are_small(one, other) {
        can_small_hold(alloc, one, other)
    } else {
        can_conjunction_hold(alloc, one, other)
    }
}

/// Whether both labels are so small that their conjunction is neither too deep nor too large.
fn are_small(one: &Label, other: &Label) -> bool
    ensures { IsTrue result → FitsALabel (conjunction one.now other.now) }
{
    let size = one.size();
    let size_of_other = other.size();
    if size > MOST_SMALL {
        return false;
    }
    if size_of_other > MOST_SMALL {
        return false;
    }
    true
}

/// Whether two labels, whose conjunction is neither too deep nor too large, can be true together.
fn can_small_hold(alloc: Global, one: &Label, other: &Label) -> Result<bool, Refusal>
    requires { FitsALabel (conjunction one.now other.now) }
    ensures judged { IfOk result
        (λ possible. IsTrue possible ↔ IsSatisfiable (conjunction one.now other.now)) }
    ensures err { IfErr result (IsUnjudged (conjunction one.now other.now)) }
{
    match satisfiable_together(one, other) {
        Ok(possible) => Ok(possible),
        Err(_) => can_conjunction_hold(alloc, one, other),
    }
}

/// Whether two labels can be true together, judged by the label of their conjunction.
fn can_conjunction_hold(alloc: Global, one: &Label, other: &Label) -> Result<bool, Refusal>
    ensures judged { IfOk result
        (λ possible. IsTrue possible ↔ IsSatisfiable (conjunction one.now other.now)) }
    ensures fits { OnOk result (FitsALabel (conjunction one.now other.now)) }
    ensures err { IfErr result (IsUnjudged (conjunction one.now other.now)) }
{
    let both = fitting_conjunction(alloc, one, other)?;
    is_satisfiable(alloc, &both)
}
