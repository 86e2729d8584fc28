//! The strong demands that have sets.

ghost use Rattle.std.specs.Prelude.{◌≡◌, ◌<◌, ◌≤◌, ◌+◌, [], ◌∷◌, ℕ, length, Contains, IfOk, IsOkUnless, OnOk};
ghost use Rattle.omega_ltl_shapes.specs.Shapes.{AreGrounded, is_strong};
ghost use Rattle.omega_ltl_terms.specs.Needed.{HaveSets, operands, spoken};
ghost use Rattle.omega_ltl_terms.specs.Tables.{AreStrongs};
ghost use Rattle.omega_ltl_terms.specs.private.Marking.{MarksMore};
ghost use Rattle.omega_ltl_terms.specs.private.Strongs.{AreCollected, AreSpoken, MarksNeeded};

use crate::closing::{mark, mark_all};
use crate::covering::{shape_at, value_at};
use crate::limits::MOST_SETS;
use omega_ltl_shapes::{Combination, Shape};
use omega_text::{Numbers, Refusal};
use std::alloc::Global;

/// Returns the strong demands that are needed for the demand `root`, in ascending order, but not more than
/// [MOST_SETS].
pub(crate) fn strongs_of(alloc: Global, shapes: &[Shape], root: u32) -> Result<Numbers, Refusal>
    requires grounded { AreGrounded shapes.now }
    requires few { length shapes.now ≤ 8192 }
    requires low { root < length shapes.now }
    ensures strongs { IfOk result (AreStrongs shapes.now) }
    ensures sets { IfOk result (HaveSets shapes.now root) }
    ensures memory { IsOkUnless result Refusal.Memory }
{
    let mut wanted = vec![in alloc; false; shapes.len()]?;
    mark_all(&[root], wanted.as_mut_slice());
    mark_operands_of_all(shapes, wanted.as_mut_slice());
    collected(alloc, shapes, wanted.as_slice())
}

/// Returns the strong demands that are wanted, in ascending order, but not more than [MOST_SETS].
fn collected(alloc: Global, shapes: &[Shape], wanted: &[bool]) -> Result<Numbers, Refusal>
    requires few { length shapes.now ≤ 8192 }
    ensures collected { IfOk result (AreCollected shapes.now wanted.now (length shapes.now)) }
    ensures memory { IsOkUnless result Refusal.Memory }
{
    let mut strongs = Numbers::new();
    for d in 0..shapes.len() as u32 {
        push_wanted(alloc, shapes, wanted, d, &mut strongs)?;
    }
    Ok(strongs)
}

/// Appends a demand, if it is wanted and strong and there is a set left.
fn push_wanted(
    alloc: Global,
    shapes: &[Shape],
    wanted: &[bool],
    d: u32,
    strongs: &mut Numbers,
) -> Result<(), Refusal>
    requires below { d < length shapes.now }
    requires so_far { AreCollected shapes.now wanted.now d strongs.old }
    ensures ok { OnOk result (AreCollected shapes.now wanted.now (d + 1) strongs.new) }
    ensures memory { IsOkUnless result Refusal.Memory }
{
    if !value_at(wanted, d) {
        return Ok(());
    }
    if !is_strong(shape_at(shapes, d)) {
        return Ok(());
    }
    if strongs.len() >= MOST_SETS {
        return Ok(());
    }
    strongs.push(alloc, d)?;
    Ok(())
}

/// Whether a demand with a shape has a goal that has to come.
fn is_strong(shape: Shape) -> bool
    ensures { result ≡ is_strong shape }
{
    match shape {
        Shape::Fix { strong, .. } => strong,
        _ => false,
    }
}

/// Marks the demands that marked ones speak of, and those that these speak of.
fn mark_operands_of_all(shapes: &[Shape], marked: &mut [bool])
    requires grounded { AreGrounded shapes.now }
    requires few { length shapes.now ≤ 8192 }
    requires long { length marked.old ≡ length shapes.now }
    ensures marks { MarksNeeded shapes.now marked.old marked.new }
    ensures spoken { AreSpoken shapes.now 0 marked.new }
{
    let mut d = shapes.len() as u32;
    while d > 0 {
        d -= 1;
        if value_at(marked, d) {
            mark_operands(shape_at(shapes, d), marked);
        }
    }
}

/// Marks the demands that a shape speaks of.
fn mark_operands(shape: Shape, marked: &mut [bool])
    requires { (d : ℕ) → Contains (operands shape) d → d < length marked.old }
    ensures { MarksMore (operands shape) marked.old marked.new }
{
    match shape {
        Shape::Now(combination) => mark_spoken(combination, marked),
        Shape::Next(d) => mark(d, marked),
        Shape::Fix {
            goal,
            keep,
            strong: _,
        } => {
            mark_spoken(goal, marked);
            mark_spoken(keep, marked);
        }
    }
}

/// Marks the demands that a combination speaks of.
fn mark_spoken(combination: Combination, marked: &mut [bool])
    requires { (d : ℕ) → Contains (spoken combination) d → d < length marked.old }
    ensures { MarksMore (spoken combination) marked.old marked.new }
{
    match combination {
        Combination::Constant(_) => {}
        Combination::Literal(_, _) => {}
        Combination::Same(d) => mark(d, marked),
        Combination::Both(d, e) => mark_all(&[d, e], marked),
        Combination::Either(d, e) => mark_all(&[d, e], marked),
        Combination::Cases(a, b, c, d) => mark_all(&[a, b, c, d], marked),
    }
}
