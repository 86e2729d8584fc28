//! Edges that meet the demands of a state, one demand after the other.

ghost use Rattle.std.specs.Prelude.{◌≡◌, ◌<◌, ◌≤◌, ◌+◌, ◌⊎◌, true, ℕ, length, IfErr, IfNone, IfOk, IfSome};
ghost use Rattle.std.specs.Prelude.{IsOkUnless, IsTrue, OnOk};
ghost use Rattle.omega_ltl_shapes.specs.Covers.{Covers};
ghost use Rattle.omega_ltl_shapes.specs.Graphs.{IsSetOf, IsStrong};
ghost use Rattle.omega_ltl_shapes.specs.Shapes.{shape_at};
ghost use Rattle.omega_ltl_shapes.specs.declared.shape.Shape.TheVariants.{Fix};
ghost use Rattle.omega_ltl_terms.specs.Adding.{HasManyTerms, IsLargeBy};
ghost use Rattle.omega_ltl_terms.specs.Meeting.{IsWaiting, LacksSet};
ghost use Rattle.omega_ltl_terms.specs.Tables.{AreCovered, AreTables};
ghost use Rattle.omega_ltl_terms.specs.private.Meeting.{AddsMet, MeetsAll, MeetsBesideOne};

use crate::covering::{cover, shape_at, value_at, value_of};
use crate::limits::MOST_TERMS;
use crate::products::push_products;
use crate::pushing::push_minimal;
use crate::tables::Tables;
use omega_ltl_shapes::{Combination, Shape, Term, with_bit};
use omega_text::{Numbers, Refusal, TaskFault};
use std::alloc::{AllocError, Global};

/// Returns what the edges fix together with what meets the demand `d`. Fails with [TaskFault::TooLarge] if there are
/// too many, or if the demand is strong and has no set.
pub(crate) fn meet(
    alloc: Global,
    tables: &Tables,
    edges: &[Term],
    d: u32,
) -> Result<Vec<Term>, Refusal>
    requires tables { AreTables tables.now }
    requires below { d < length tables.now.shapes }
    ensures ok { IfOk result
        (λ met. MeetsAll tables.now.shapes tables.now.strongs d edges.now met.items) }
    ensures refused { IfErr result (IsLargeBy (LacksSet tables.now.shapes tables.now.strongs d
        ⊎ HasManyTerms (MeetsBesideOne tables.now.shapes tables.now.strongs d edges.now))) }
{
    let mut kept = Vec::new(alloc);
    let mut covered = Vec::new(alloc);
    for edge in edges {
        push_met(alloc, tables, edge, d, &mut covered, &mut kept)?;
        if kept.len() > MOST_TERMS {
            return Err(Refusal::Task(TaskFault::TooLarge));
        }
    }
    Ok(kept)
}

/// Appends to `kept` what `edge` fixes together with what meets the demand `d`. Fails with [TaskFault::TooLarge] if the
/// demand is strong and has no set. Stops if over [MOST_TERMS] are there.
fn push_met(
    alloc: Global,
    tables: &Tables,
    edge: &Term,
    d: u32,
    covered: &mut Vec<bool>,
    kept: &mut Vec<Term>,
) -> Result<(), Refusal>
    requires tables { AreTables tables.now }
    requires below { d < length tables.now.shapes }
    ensures ok { OnOk result (AddsMet tables.now.shapes tables.now.strongs edge.now d
        kept.old.items kept.new.items) }
    ensures refused { IfErr result (IsLargeBy (LacksSet tables.now.shapes tables.now.strongs d)) }
{
    let shapes = tables.shapes.as_slice();
    cover(shapes, edge.cube, edge.next.as_slice(), d + 1, covered)?;
    let shape = shape_at(shapes, d);
    match shape {
        Shape::Fix {
            goal,
            keep,
            strong: true,
        } => push_strong(alloc, tables, edge, d, goal, keep, covered.as_slice(), kept),
        _ => push_weak(
            alloc,
            tables,
            edge,
            d,
            value_at(covered.as_slice(), d),
            kept,
        ),
    }
}

/// Appends to `kept` what `edge` fixes together with what meets the demand `d`, which is not strong; `covered` says
/// whether the edge covers it. Stops as [`push_met`] does.
fn push_weak(
    alloc: Global,
    tables: &Tables,
    edge: &Term,
    d: u32,
    covered: bool,
    kept: &mut Vec<Term>,
) -> Result<(), Refusal>
    requires tables { AreTables tables.now }
    requires below { d < length tables.now.shapes }
    requires weak { IsStrong tables.now.shapes d → ⊥ }
    requires covered { IsTrue covered → Covers tables.now.shapes edge.now.cube edge.now.next d }
    ensures ok { OnOk result (AddsMet tables.now.shapes tables.now.strongs edge.now d
        kept.old.items kept.new.items) }
    ensures memory { IsOkUnless result Refusal.Memory }
{
    if covered {
        let same = edge.copy(alloc)?;
        return push_minimal(kept, same);
    }
    push_products(
        alloc,
        edge,
        Combination::Same(d),
        tables.terms.as_slice(),
        kept,
    )
}

/// Appends to `kept` what `edge` fixes together with what meets the strong demand `d`: its goal, or `keep` and the
/// demand itself at the next index, late. Fails as [`push_met`] does.
fn push_strong(
    alloc: Global,
    tables: &Tables,
    edge: &Term,
    d: u32,
    goal: Combination,
    keep: Combination,
    covered: &[bool],
    kept: &mut Vec<Term>,
) -> Result<(), Refusal>
    requires tables { AreTables tables.now }
    requires below { d < length tables.now.shapes }
    requires strong { shape_at tables.now.shapes d ≡ Fix goal keep true }
    requires covered { AreCovered tables.now.shapes edge.now.cube edge.now.next (d + 1) covered.now }
    ensures ok { OnOk result (AddsMet tables.now.shapes tables.now.strongs edge.now d
        kept.old.items kept.new.items) }
    ensures refused { IfErr result (IsLargeBy (LacksSet tables.now.shapes tables.now.strongs d)) }
{
    if value_of(goal, edge.cube, covered) {
        let same = edge.copy(alloc)?;
        return push_minimal(kept, same);
    }
    match set_of(tables.strongs.as_slice(), d) {
        None => Err(Refusal::Task(TaskFault::TooLarge)),
        Some(set) => push_waiting(alloc, tables, edge, d, set, goal, keep, kept),
    }
}

/// Appends to `kept` what `edge` fixes together with the goal of the strong demand `d` of the set `set`, or with `keep`
/// and the demand at the next index. Stops as [`push_met`] does.
fn push_waiting(
    alloc: Global,
    tables: &Tables,
    edge: &Term,
    d: u32,
    set: u32,
    goal: Combination,
    keep: Combination,
    kept: &mut Vec<Term>,
) -> Result<(), Refusal>
    requires tables { AreTables tables.now }
    requires below { d < length tables.now.shapes }
    requires strong { shape_at tables.now.shapes d ≡ Fix goal keep true }
    requires set { IsSetOf tables.now.strongs set d }
    ensures ok { OnOk result (AddsMet tables.now.shapes tables.now.strongs edge.now d
        kept.old.items kept.new.items) }
    ensures memory { IsOkUnless result Refusal.Memory }
{
    push_products(alloc, edge, goal, tables.terms.as_slice(), kept)?;
    let later = waiting(alloc, edge, d, set)?;
    push_products(alloc, &later, keep, tables.terms.as_slice(), kept)
}

/// Returns the set of the strong demand `d`, or none if it has none.
fn set_of(strongs: &[u32], d: u32) -> Option<u32>
    requires { length strongs.now ≤ 64 }
    ensures some { IfSome result (λ set. IsSetOf strongs.now set d) }
    ensures none { IfNone result ((set : ℕ) → IsSetOf strongs.now set d → ⊥) }
{
    for set in 0..strongs.len() as u32 {
        if strongs[set as usize] == d {
            return Some(set);
        }
    }
    None
}

/// Returns what `edge` fixes and that the demand `d` holds at the next index, late in its set.
fn waiting(alloc: Global, edge: &Term, d: u32, set: u32) -> Result<Term, AllocError>
    requires { set < 64 }
    ensures { IfOk result (IsWaiting edge.now d set) }
{
    let mut next = Numbers::from_slice(alloc, edge.next.as_slice())?;
    next.push(alloc, d)?;
    Ok(Term {
        cube: edge.cube,
        next,
        late: with_bit(edge.late, set),
    })
}
