//! Letters of edges at which no lesser edge can be taken.

ghost use Rattle.std.specs.Prelude.{◌↔◌, ◌<◌, [], ◌∷◌, ◌++◌, ℕ, List, IfOk, IsOkUnless, IsTrue, OnOk};
ghost use Rattle.omega_ltl_shapes.specs.Covers.{is_set};
ghost use Rattle.omega_ltl_shapes.specs.declared.term.Term.{Term};
ghost use Rattle.omega_ltl_terms.specs.Pieces.{AreInPieces};
ghost use Rattle.omega_ltl_terms.specs.private.Splitting.{AddsNegation, AddsNegations, AddsParts};
ghost use Rattle.omega_ltl_terms.specs.private.Splitting.{AddsWithout, AllPossible, AreLeft, ArePushed, AreSplit};
ghost use Rattle.omega_ltl_terms.specs.private.Splitting.{AreSplitInOrder, AreWithout};
ghost use Rattle.omega_ltl_terms.specs.private.Splitting.{AsksNoMore, IsLesser, IsPart};

use omega_ltl_shapes::{Cube, Term, has_bits_of, has_items};
use omega_text::{Numbers, Refusal};
use std::alloc::{AllocError, Global};

/// Returns the edges with the letters taken away at which a lesser one can be taken: one for each cube that is left.
///
/// Lesser edges come first, and an edge loses letters to those before it alone. So at each letter at which some edge
/// can be taken one still can.
pub(crate) fn split(alloc: Global, edges: Vec<Term>) -> Result<Vec<Term>, Refusal>
    ensures split { IfOk result (λ parts. AreSplit edges.items parts.items) }
    ensures pieces { IfOk result
        (λ parts. AllPossible edges.items → AreInPieces edges.items parts.items) }
    ensures memory { IsOkUnless result Refusal.Memory }
{
    let mut edges = edges;
    edges.sort_by_key(|edge| weight(edge))?;
    split_in_order(alloc, edges.as_slice())
}

/// Returns the edges with the letters taken away at which a lesser one before them can be taken.
fn split_in_order(alloc: Global, edges: &[Term]) -> Result<Vec<Term>, Refusal>
    ensures split { IfOk result (λ parts. AreSplit edges.now parts.items) }
    ensures pieces { IfOk result (λ parts. AreSplitInOrder edges.now parts.items) }
    ensures memory { IsOkUnless result Refusal.Memory }
{
    let mut parts = Vec::new(alloc);
    for at in 0..edges.len() {
        push_parts(alloc, &edges[..at], &edges[at], &mut parts)?;
    }
    Ok(parts)
}

/// Returns how much an edge asks for. A lesser one asks for less.
fn weight(edge: &Term) -> usize {
    edge.next
        .len()
        .saturating_add(edge.late.count_ones() as usize)
}

/// Appends to `parts` those of `edge` for the letters at which no lesser one of `before` can be taken.
fn push_parts(
    alloc: Global,
    before: &[Term],
    edge: &Term,
    parts: &mut Vec<Term>,
) -> Result<(), Refusal>
    ensures ok { OnOk result (AddsParts before.now edge.now parts.old.items parts.new.items) }
    ensures memory { IsOkUnless result Refusal.Memory }
{
    let cubes = cubes_left(alloc, before, edge)?;
    push_all(alloc, edge, cubes.as_slice(), parts)
}

/// Appends to `parts` the part of `edge` for each of some cubes.
fn push_all(
    alloc: Global,
    edge: &Term,
    cubes: &[Cube],
    parts: &mut Vec<Term>,
) -> Result<(), Refusal>
    ensures ok { OnOk result (ArePushed edge.now cubes.now parts.old.items parts.new.items) }
    ensures memory { IsOkUnless result Refusal.Memory }
{
    for cube in cubes {
        let part = part_of(alloc, edge, *cube)?;
        parts.push(part)?;
    }
    Ok(())
}

/// Returns the part of `edge` with a cube in place of its own.
fn part_of(alloc: Global, edge: &Term, cube: Cube) -> Result<Term, AllocError>
    ensures { IfOk result (IsPart edge.now cube) }
{
    let next = Numbers::from_slice(alloc, edge.next.as_slice())?;
    Ok(Term {
        cube,
        next,
        late: edge.late,
    })
}

/// Returns cubes for the letters of `edge` at which no lesser one of `before` can be taken.
fn cubes_left(alloc: Global, before: &[Term], edge: &Term) -> Result<Vec<Cube>, AllocError>
    ensures { IfOk result (λ cubes. AreLeft before.now edge.now cubes.items) }
{
    let mut cubes = Vec::new(alloc);
    cubes.push(edge.cube)?;
    for less in before {
        cubes = without_lesser(alloc, cubes, less, edge)?;
    }
    Ok(cubes)
}

/// Returns cubes for the letters of some cubes of `edge` at which `less` cannot be taken, if it is lesser.
fn without_lesser(
    alloc: Global,
    cubes: Vec<Cube>,
    less: &Term,
    edge: &Term,
) -> Result<Vec<Cube>, AllocError>
    ensures { IfOk result (λ left. (before : List Term) → AreLeft before edge.now cubes.items
        → AreLeft (before ++ less.now ∷ []) edge.now left.items) }
{
    if !is_lesser(less, edge) {
        return Ok(cubes);
    }
    without(alloc, cubes.as_slice(), less.cube)
}

/// Whether `less` asks for no more of the next index than `edge` and postpones no more, but not for the same.
fn is_lesser(less: &Term, edge: &Term) -> bool
    ensures { IsTrue result ↔ IsLesser less.now edge.now }
{
    asks_no_more(less, edge) && !asks_no_more(edge, less)
}

/// Whether `less` asks for no more of the next index than `edge`, and postpones no more.
fn asks_no_more(less: &Term, edge: &Term) -> bool
    ensures { IsTrue result ↔ AsksNoMore less.now edge.now }
{
    has_bits_of(edge.late, less.late) && has_items(edge.next.as_slice(), less.next.as_slice())
}

/// Returns cubes for the letters of some cubes without those of another.
fn without(alloc: Global, cubes: &[Cube], other: Cube) -> Result<Vec<Cube>, AllocError>
    ensures { IfOk result (λ left. AreWithout cubes.now other left.items) }
{
    let mut left = Vec::new(alloc);
    for cube in cubes {
        push_without(*cube, other, &mut left)?;
    }
    Ok(left)
}

/// Appends to `left` cubes for the letters of `cube` without those of `other`: for each literal of `other` that `cube`
/// lacks, its negation, with those before it.
fn push_without(cube: Cube, other: Cube, left: &mut Vec<Cube>) -> Result<(), AllocError>
    ensures { OnOk result (AddsWithout cube other left.old.items left.new.items) }
{
    if cube.join(other).is_none() {
        left.push(cube)?;
        return Ok(());
    }
    bits_are_below(other.positive);
    bits_are_below(other.negative);
    let mut base = cube;
    for name in 0..64u32 {
        base = push_negations(base, other, name, left)?;
    }
    Ok(())
}

/// States that the bits of a word are numbered below 64. Does nothing.
fn bits_are_below(word: u64)
    ensures { (place : ℕ) → IsTrue (is_set word place) → place < 64 }
{}

/// Appends to `left` what [`push_negation`] does for both literals of a name. Returns `base` with those of `other`.
fn push_negations(
    base: Cube,
    other: Cube,
    name: u32,
    left: &mut Vec<Cube>,
) -> Result<Cube, AllocError>
    requires { name < 64 }
    ensures { IfOk result (λ more. AddsNegations base other name more left.old.items left.new.items) }
{
    let middle = push_negation(base, other, name, false, left)?;
    push_negation(middle, other, name, true, left)
}

/// Appends to `left` the cube `base` with the negation of a literal, if `other` has the literal and `base` lacks it.
/// Returns `base` with the literal.
fn push_negation(
    base: Cube,
    other: Cube,
    name: u32,
    negated: bool,
    left: &mut Vec<Cube>,
) -> Result<Cube, AllocError>
    requires { name < 64 }
    ensures { IfOk result
        (λ more. AddsNegation base other name negated more left.old.items left.new.items) }
{
    if !other.has(name, negated) || base.has(name, negated) {
        return Ok(base);
    }
    left.push(base.with(name, !negated))?;
    Ok(base.with(name, negated))
}
