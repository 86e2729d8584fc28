//! Terms of combinations.

ghost use Rattle.std.specs.Prelude.{◌≡◌, ◌<◌, [], ◌∷◌, List, length, IsOkUnless, OnOk};
ghost use Rattle.omega_ltl_shapes.specs.Combinations.{SpeaksBelow};
ghost use Rattle.omega_ltl_shapes.specs.declared.combination.Combination.TheVariants.{Constant, Literal};
ghost use Rattle.omega_ltl_shapes.specs.declared.shape.Shape.{Shape};
ghost use Rattle.omega_ltl_terms.specs.Products.{AddsCombination, AddsJoins, AddsPairs, AreTerms};
ghost use Rattle.omega_ltl_terms.specs.Products.{terms_at};

use crate::limits::MOST_TERMS;
use crate::pushing::push_minimal;
use omega_ltl_shapes::{Combination, Cube, Term};
use omega_text::{Numbers, Refusal, Seq};
use std::alloc::Global;

/// Appends to `kept` the terms that fix what `with` fixes and what `combination` says, by the terms of its demands.
/// Stops if over [MOST_TERMS] are there.
pub(crate) fn push_products(
    alloc: Global,
    with: &Term,
    combination: Combination,
    terms: &[Seq<Term>],
    kept: &mut Vec<Term>,
) -> Result<(), Refusal>
    requires { SpeaksBelow (length terms.now) combination }
    ensures ok { OnOk result ((shapes : List Shape) → AreTerms shapes terms.now
        → AddsCombination shapes with.now combination kept.old.items kept.new.items) }
    ensures memory { IsOkUnless result Refusal.Memory }
{
    match combination {
        Combination::Constant(value) => push_if(alloc, with, value, kept),
        Combination::Literal(name, negated) => push_literal(alloc, with, name, negated, kept),
        Combination::Same(d) => push_joins(alloc, with, terms_at(terms, d), kept),
        Combination::Both(d, e) => push_pairs(
            alloc,
            with,
            terms_at(terms, d),
            terms_at(terms, e),
            kept,
        ),
        Combination::Either(d, e) => {
            push_joins(alloc, with, terms_at(terms, d), kept)?;
            push_joins(alloc, with, terms_at(terms, e), kept)
        }
        Combination::Cases(a, b, c, d) => {
            push_pairs(alloc, with, terms_at(terms, a), terms_at(terms, b), kept)?;
            push_pairs(alloc, with, terms_at(terms, c), terms_at(terms, d), kept)
        }
    }
}

/// Returns the terms of the demand `d`.
pub(crate) fn terms_at(terms: &[Seq<Term>], d: u32) -> &[Term]
    requires { d < length terms.now }
    ensures { result.now ≡ terms_at terms.now d }
{
    terms[d as usize].as_slice()
}

/// Appends `with` to `kept` if a constant is true.
fn push_if(alloc: Global, with: &Term, value: bool, kept: &mut Vec<Term>) -> Result<(), Refusal>
    ensures ok { OnOk result ((shapes : List Shape)
        → AddsCombination shapes with.now (Constant value) kept.old.items kept.new.items) }
    ensures memory { IsOkUnless result Refusal.Memory }
{
    if !value {
        return Ok(());
    }
    let same = with.copy(alloc)?;
    push_minimal(kept, same)
}

/// Appends to `kept` what `with` fixes together with a literal, if they do not contradict each other.
fn push_literal(
    alloc: Global,
    with: &Term,
    name: u32,
    negated: bool,
    kept: &mut Vec<Term>,
) -> Result<(), Refusal>
    requires { name < 64 }
    ensures ok { OnOk result ((shapes : List Shape)
        → AddsCombination shapes with.now (Literal name negated) kept.old.items kept.new.items) }
    ensures memory { IsOkUnless result Refusal.Memory }
{
    let literal = Cube::of_literal(name, negated);
    match with.cube.join(literal) {
        None => Ok(()),
        Some(cube) => {
            let next = Numbers::from_slice(alloc, with.next.as_slice())?;
            push_minimal(
                kept,
                Term {
                    cube,
                    next,
                    late: with.late,
                },
            )
        }
    }
}

/// Appends to `kept` what `with` fixes together with each of `terms` that it does not contradict. Stops if over
/// [MOST_TERMS] are there.
fn push_joins(
    alloc: Global,
    with: &Term,
    terms: &[Term],
    kept: &mut Vec<Term>,
) -> Result<(), Refusal>
    ensures ok { OnOk result (AddsJoins with.now terms.now kept.old.items kept.new.items) }
    ensures memory { IsOkUnless result Refusal.Memory }
{
    for term in terms {
        if kept.len() > MOST_TERMS {
            return Ok(());
        }
        push_join(alloc, with, term, kept)?;
    }
    Ok(())
}

/// Appends to `kept` what `with` and `term` fix together, if they do not contradict each other.
fn push_join(alloc: Global, with: &Term, term: &Term, kept: &mut Vec<Term>) -> Result<(), Refusal>
    ensures ok { OnOk result (AddsJoins with.now (term.now ∷ []) kept.old.items kept.new.items) }
    ensures memory { IsOkUnless result Refusal.Memory }
{
    let found = with.join(alloc, term)?;
    match found {
        None => Ok(()),
        Some(joined) => push_minimal(kept, joined),
    }
}

/// Appends to `kept` what `with` fixes together with one of `firsts` and one of `seconds`. Stops if over [MOST_TERMS]
/// are there.
fn push_pairs(
    alloc: Global,
    with: &Term,
    firsts: &[Term],
    seconds: &[Term],
    kept: &mut Vec<Term>,
) -> Result<(), Refusal>
    ensures ok { OnOk result
        (AddsPairs with.now firsts.now seconds.now kept.old.items kept.new.items) }
    ensures memory { IsOkUnless result Refusal.Memory }
{
    for first in firsts {
        if kept.len() > MOST_TERMS {
            return Ok(());
        }
        push_pairs_with(alloc, with, first, seconds, kept)?;
    }
    Ok(())
}

/// Appends to `kept` what `with` fixes together with `first` and one of `seconds`.
fn push_pairs_with(
    alloc: Global,
    with: &Term,
    first: &Term,
    seconds: &[Term],
    kept: &mut Vec<Term>,
) -> Result<(), Refusal>
    ensures ok { OnOk result
        (AddsPairs with.now (first.now ∷ []) seconds.now kept.old.items kept.new.items) }
    ensures memory { IsOkUnless result Refusal.Memory }
{
    let found = with.join(alloc, first)?;
    match found {
        None => Ok(()),
        Some(joined) => push_joins(alloc, &joined, seconds, kept),
    }
}
