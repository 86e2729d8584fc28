//! The terms of the demands of a formula.

ghost use Rattle.std.specs.Prelude.{◌≡◌, ◌<◌, ◌≤◌, List, ℕ, length, IfErr, IfOk, IsOkUnless};
ghost use Rattle.omega_ltl_shapes.specs.Combinations.{SpeaksBelow};
ghost use Rattle.omega_ltl_shapes.specs.Shapes.{AreGrounded, IsShapeBelow, shape_at};
ghost use Rattle.omega_ltl_shapes.specs.declared.shape.Shape.TheVariants.{Fix, Next, Now};
ghost use Rattle.omega_ltl_shapes.specs.declared.shape.Shape.{Shape};
ghost use Rattle.omega_ltl_terms.specs.Adding.{IsLargeBy};
ghost use Rattle.omega_ltl_terms.specs.Meeting.{HasManyWays};
ghost use Rattle.omega_ltl_terms.specs.Products.{AreTerms, AreTermsOf};
ghost use Rattle.omega_ltl_terms.specs.Ways.{next_term};

use crate::covering::shape_at;
use crate::limits::MOST_TERMS;
use crate::products::push_products;
use crate::pushing::push_minimal;
use omega_ltl_shapes::{Combination, Cube, Shape, Term};
use omega_text::{Numbers, Refusal, Seq, TaskFault};
use std::alloc::Global;

/// Returns the terms of all demands, by their numbers: parts first, so that those of smaller demands are there. Fails
/// with [TaskFault::TooLarge] if a demand has over [MOST_TERMS].
pub(crate) fn terms_of_all(alloc: Global, shapes: &[Shape]) -> Result<Seq<Seq<Term>>, Refusal>
    requires grounded { AreGrounded shapes.now }
    requires few { length shapes.now ≤ 8192 }
    ensures count { IfOk result (λ all. length all ≡ length shapes.now) }
    ensures terms { IfOk result (AreTerms shapes.now) }
    ensures refused { IfErr result
        (IsLargeBy ((d : ℕ) × (d < length shapes.now) × HasManyWays shapes.now d)) }
{
    let mut all = Vec::new(alloc);
    for d in 0..shapes.len() as u32 {
        let shape = shape_at(shapes, d);
        let terms = terms_of(alloc, shape, d, all.as_slice())?;
        if terms.len() > MOST_TERMS {
            return Err(Refusal::Task(TaskFault::TooLarge));
        }
        all.push(terms)?;
    }
    Ok(Seq::from_vec(all))
}

/// Returns the terms of the demand `d` with a shape, by those of smaller demands. If they are over [MOST_TERMS], some
/// are left out.
fn terms_of(
    alloc: Global,
    shape: Shape,
    d: u32,
    smaller: &[Seq<Term>],
) -> Result<Seq<Term>, Refusal>
    requires count { length smaller.now ≡ d }
    requires below { IsShapeBelow d shape }
    ensures terms { IfOk result (λ terms. (shapes : List Shape) → AreTerms shapes smaller.now
        → shape_at shapes d ≡ shape → AreTermsOf shapes d terms) }
    ensures memory { IsOkUnless result Refusal.Memory }
{
    match shape {
        Shape::Now(combination) => terms_now(alloc, d, combination, smaller),
        Shape::Next(e) => terms_next(alloc, d, e),
        Shape::Fix { goal, keep, strong } => terms_fix(alloc, d, goal, keep, strong, smaller),
    }
}

/// Returns the terms of a demand that is a combination.
fn terms_now(
    alloc: Global,
    d: u32,
    combination: Combination,
    smaller: &[Seq<Term>],
) -> Result<Seq<Term>, Refusal>
    requires { SpeaksBelow (length smaller.now) combination }
    ensures terms { IfOk result (λ terms. (shapes : List Shape) → AreTerms shapes smaller.now
        → shape_at shapes d ≡ Now combination → AreTermsOf shapes d terms) }
    ensures memory { IsOkUnless result Refusal.Memory }
{
    let unit = Term::empty();
    let mut terms = Vec::new(alloc);
    push_products(alloc, &unit, combination, smaller, &mut terms)?;
    Ok(Seq::from_vec(terms))
}

/// Returns the terms of a demand that another holds at the next index.
fn terms_next(alloc: Global, d: u32, e: u32) -> Result<Seq<Term>, Refusal>
    ensures terms { IfOk result (λ terms. (shapes : List Shape) → AreGrounded shapes
        → shape_at shapes d ≡ Next e → AreTermsOf shapes d terms) }
    ensures memory { IsOkUnless result Refusal.Memory }
{
    let later = next_term(e);
    let mut terms = Vec::new(alloc);
    push_minimal(&mut terms, later)?;
    Ok(Seq::from_vec(terms))
}

/// Returns the terms of a demand that waits for a goal.
fn terms_fix(
    alloc: Global,
    d: u32,
    goal: Combination,
    keep: Combination,
    strong: bool,
    smaller: &[Seq<Term>],
) -> Result<Seq<Term>, Refusal>
    requires goal { SpeaksBelow (length smaller.now) goal }
    requires keep { SpeaksBelow (length smaller.now) keep }
    ensures terms { IfOk result (λ terms. (shapes : List Shape) → AreTerms shapes smaller.now
        → shape_at shapes d ≡ Fix goal keep strong → AreTermsOf shapes d terms) }
    ensures memory { IsOkUnless result Refusal.Memory }
{
    let unit = Term::empty();
    let later = next_term(d);
    let mut terms = Vec::new(alloc);
    push_products(alloc, &unit, goal, smaller, &mut terms)?;
    push_products(alloc, &later, keep, smaller, &mut terms)?;
    Ok(Seq::from_vec(terms))
}

/// Returns the term that fixes one demand on the next index.
fn next_term(d: u32) -> Term
    ensures { result ≡ next_term d }
{
    Term {
        cube: Cube::empty(),
        next: Numbers::one(d),
        late: 0,
    }
}
