//! Closed sets of demands.

ghost use Rattle.std.specs.Prelude.{◌≡◌, ◌↔◌, ◌<◌, ◌≤◌, [], ◌∷◌, ℕ, length, Contains, IsTrue, OnOk};
ghost use Rattle.std.specs.Prelude.{AllPairs, IfNone, IfOk, IfSome, IsOkUnless};
ghost use Rattle.std.specs.Bool.{OnFalse, OnTrue};
ghost use Rattle.omega_ltl_shapes.specs.Shapes.{AreGrounded};
ghost use Rattle.omega_ltl_terms.specs.Closing.{AreNeverTrue, Closes, IsClosedSet, brings};
ghost use Rattle.omega_ltl_terms.specs.Closing.{combination_parts, is_false};
ghost use Rattle.omega_ltl_terms.specs.Closing.{kept_part, parts_of, stays_closed};
ghost use Rattle.omega_ltl_terms.specs.private.Marking.{AddsStayed, AreParted, AreStayed, MarkedAreNeverTrue};
ghost use Rattle.omega_ltl_terms.specs.private.Marking.{MarksMore, MarksTrue};

use crate::covering::{shape_at, value_at};
use omega_ltl_shapes::{Combination, Shape};
use omega_text::{Numbers, Refusal};
use std::alloc::Global;

/// Returns demands that close `demands`, in ascending order, or none if `demands` are false together.
///
/// Conjunctions are taken apart, and a demand that waits for a goal brings what it keeps, if that holds now in any
/// case. Parts are smaller than the demand that they are of, so one loop downwards finds all.
pub(crate) fn closed(
    alloc: Global,
    shapes: &[Shape],
    demands: &[u32],
) -> Result<Option<Numbers>, Refusal>
    requires grounded { AreGrounded shapes.now }
    requires few { length shapes.now ≤ 8192 }
    ensures closes { IfOk result (λ found. IfSome found (Closes shapes.now demands.now)) }
    ensures exact { IfOk result (λ found. IfSome found (IsClosedSet shapes.now demands.now)) }
    ensures none { IfOk result (λ found. IfNone found (AreNeverTrue shapes.now demands.now)) }
    ensures memory { IsOkUnless result Refusal.Memory }
{
    if !are_below(demands, shapes.len()) {
        return Ok(None);
    }
    let mut marked = vec![in alloc; false; shapes.len()]?;
    mark_all(demands, marked.as_mut_slice());
    if !mark_parts(shapes, marked.as_mut_slice()) {
        return Ok(None);
    }
    Ok(Some(stayed(alloc, shapes, marked.as_slice())?))
}

/// Whether all demands are below a count.
fn are_below(demands: &[u32], count: usize) -> bool
    ensures { IsTrue result ↔ ((d : ℕ) → Contains demands.now d → d < count) }
{
    for d in demands {
        if *d as usize >= count {
            return false;
        }
    }
    true
}

/// Marks some demands.
pub(crate) fn mark_all(demands: &[u32], marked: &mut [bool])
    requires { (d : ℕ) → Contains demands.now d → d < length marked.old }
    ensures { MarksMore demands.now marked.old marked.new }
{
    for d in demands {
        mark(*d, marked);
    }
}

/// Marks a demand.
pub(crate) fn mark(d: u32, marked: &mut [bool])
    requires { d < length marked.old }
    ensures { MarksMore (d ∷ []) marked.old marked.new }
{
    marked[d as usize] = true;
}

/// Marks the parts of all marked demands, and theirs, unless one is false. Returns whether none is.
fn mark_parts(shapes: &[Shape], marked: &mut [bool]) -> bool
    requires grounded { AreGrounded shapes.now }
    requires few { length shapes.now ≤ 8192 }
    requires long { length marked.old ≡ length shapes.now }
    ensures marks { MarksTrue shapes.now marked.old marked.new }
    ensures parted { OnTrue result (AreParted shapes.now 0 marked.new) }
    ensures none { OnFalse result (MarkedAreNeverTrue shapes.now marked.old) }
{
    let mut d = shapes.len() as u32;
    while d > 0 {
        d -= 1;
        if value_at(marked, d) {
            let shape = shape_at(shapes, d);
            if is_false(shape) {
                return false;
            }
            mark_parts_of(shape, marked);
        }
    }
    true
}

/// Marks the parts of a demand with a shape.
fn mark_parts_of(shape: Shape, marked: &mut [bool])
    requires { (d : ℕ) → Contains (parts_of shape) d → d < length marked.old }
    ensures { MarksMore (parts_of shape) marked.old marked.new }
{
    match shape {
        Shape::Now(combination) => mark_combination(combination, marked),
        Shape::Next(_) => {}
        Shape::Fix {
            goal,
            keep,
            strong: _,
        } => mark_kept(goal, keep, marked),
    }
}

/// Marks the demands that hold wherever a combination does, if it is no more than these.
fn mark_combination(combination: Combination, marked: &mut [bool])
    requires { (d : ℕ) → Contains (combination_parts combination) d → d < length marked.old }
    ensures { MarksMore (combination_parts combination) marked.old marked.new }
{
    match combination {
        Combination::Same(d) => mark(d, marked),
        Combination::Both(d, e) => {
            mark(d, marked);
            mark(e, marked);
        }
        _ => {}
    }
}

/// Marks the demand to keep, if the goal brings it.
fn mark_kept(goal: Combination, keep: Combination, marked: &mut [bool])
    requires { (d : ℕ) → Contains (kept_part goal keep) d → d < length marked.old }
    ensures { MarksMore (kept_part goal keep) marked.old marked.new }
{
    match keep {
        Combination::Same(d) => {
            if brings(goal, d) {
                mark(d, marked);
            }
        }
        _ => {}
    }
}

/// Whether a goal brings the demand `d`: it never comes, or `d` is one of it.
fn brings(goal: Combination, d: u32) -> bool
    ensures { result ≡ brings goal d }
{
    match goal {
        Combination::Constant(value) => !value,
        Combination::Same(e) => e == d,
        Combination::Both(e, f) => e == d || f == d,
        _ => false,
    }
}

/// Whether a shape is false.
fn is_false(shape: Shape) -> bool
    ensures { result ≡ is_false shape }
{
    match shape {
        Shape::Now(Combination::Constant(value)) => !value,
        _ => false,
    }
}

/// Whether a demand with a shape stays in a closed set.
fn stays(shape: Shape) -> bool
    ensures { result ≡ stays_closed shape }
{
    match shape {
        Shape::Now(Combination::Constant(_) | Combination::Same(_) | Combination::Both(_, _)) =>
            false,
        _ => true,
    }
}

/// Returns the marked demands that stay, in ascending order.
fn stayed(alloc: Global, shapes: &[Shape], marked: &[bool]) -> Result<Numbers, Refusal>
    requires few { length shapes.now ≤ 8192 }
    ensures stayed { IfOk result (AreStayed shapes.now marked.now) }
    ensures ascending { IfOk result (λ items. AllPairs (λ one other. one < other) items) }
    ensures memory { IsOkUnless result Refusal.Memory }
{
    let mut items = Numbers::new();
    for d in 0..shapes.len() as u32 {
        push_stayed(alloc, shapes, marked, d, &mut items)?;
    }
    Ok(items)
}

/// Appends a demand, if it is marked and stays.
fn push_stayed(
    alloc: Global,
    shapes: &[Shape],
    marked: &[bool],
    d: u32,
    items: &mut Numbers,
) -> Result<(), Refusal>
    ensures ok { OnOk result (AddsStayed shapes.now marked.now d items.old items.new) }
    ensures memory { IsOkUnless result Refusal.Memory }
{
    if !value_at(marked, d) {
        return Ok(());
    }
    if !stays(shape_at(shapes, d)) {
        return Ok(());
    }
    items.push(alloc, d)?;
    Ok(())
}
