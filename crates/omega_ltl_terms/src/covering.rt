//! Which demands a cube and demands on the next index cover.

ghost use Rattle.std.specs.Prelude.{◌≡◌, ◌↔◌, ◌≤◌, ◌<◌, false, slice_index_or, length, IsTrue, OnOk};
ghost use Rattle.omega_ltl_shapes.specs.Combinations.{combined};
ghost use Rattle.omega_ltl_shapes.specs.Covers.{Step, has_literal};
ghost use Rattle.omega_ltl_shapes.specs.Shapes.{AreGrounded, shape_at};
ghost use Rattle.omega_ltl_terms.specs.Tables.{AreCovered};

use omega_ltl_shapes::{Combination, Cube, Shape, has_item};
use std::alloc::AllocError;

/// Sets `covered` to whether each of the first `count` demands is covered.
pub(crate) fn cover(
    shapes: &[Shape],
    cube: Cube,
    next: &[u32],
    count: u32,
    covered: &mut Vec<bool>,
) -> Result<(), AllocError>
    requires grounded { AreGrounded shapes.now }
    requires few { count ≤ length shapes.now }
    ensures { OnOk result (AreCovered shapes.now cube next.now count covered.new.items) }
{
    covered.clear();
    for d in 0..count {
        let shape = shape_at(shapes, d);
        let value = is_covered(shape, d, cube, next, covered.as_slice());
        covered.push(value)?;
    }
    Ok(())
}

/// Whether a demand with a shape is covered, if `covered` says so of smaller demands.
fn is_covered(shape: Shape, d: u32, cube: Cube, next: &[u32], covered: &[bool]) -> bool
    ensures { IsTrue result ↔ Step cube next.now
        (λ e. IsTrue (slice_index_or covered.now e false)) d shape }
{
    match shape {
        Shape::Now(combination) => value_of(combination, cube, covered),
        Shape::Next(e) => has_item(next, e),
        Shape::Fix {
            goal,
            keep,
            strong: _,
        } => {
            value_of(goal, cube, covered) || (value_of(keep, cube, covered) && has_item(next, d))
        }
    }
}

/// Whether a combination is covered by a cube and the demands that are covered.
pub(crate) fn value_of(combination: Combination, cube: Cube, covered: &[bool]) -> bool
    ensures { result ≡ combined (has_literal cube)
        (λ e. slice_index_or covered.now e false) combination }
{
    match combination {
        Combination::Constant(value) => value,
        Combination::Literal(name, negated) => cube.has(name, negated),
        Combination::Same(d) => value_at(covered, d),
        Combination::Both(d, e) => value_at(covered, d) && value_at(covered, e),
        Combination::Either(d, e) => value_at(covered, d) || value_at(covered, e),
        Combination::Cases(a, b, c, d) => {
            (value_at(covered, a) && value_at(covered, b))
                || (value_at(covered, c) && value_at(covered, d))
        }
    }
}

/// Whether `covered` says so of the demand `d`.
pub(crate) fn value_at(covered: &[bool], d: u32) -> bool
    ensures { result ≡ slice_index_or covered.now d false }
{
    match covered.get(d as usize) {
        Some(value) => *value,
        None => false,
    }
}

/// Returns the shape of the demand `d`, false beyond the table.
pub(crate) fn shape_at(shapes: &[Shape], d: u32) -> Shape
    ensures { result ≡ shape_at shapes.now d }
{
    match shapes.get(d as usize) {
        Some(shape) => *shape,
        None => Shape::Now(Combination::Constant(false)),
    }
}
