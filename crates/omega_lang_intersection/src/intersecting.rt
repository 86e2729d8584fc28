//! The intersection by the graph of the product.

ghost use Rattle.std.specs.Prelude.{◌≡◌, ◌<◌, ◌^◌, get_or, length, map, IfErr, IfOk, IsOkUnless, OnOk};
ghost use Rattle.omega_lang_intersection.specs.Intersection.{AcceptBoth, HaveStrings, IsExample, IsIntersection};
ghost use Rattle.omega_lang_intersection.specs.private.Letters.{joint_word as word_of_joints};
ghost use Rattle.omega_lang_intersection.specs.private.Meeting.{HavePairGraph, IsLassoOn, IsVerdictOn};
ghost use Rattle.omega_lang_product.specs.PairGraph.{IsPairGraph};
ghost use Rattle.omega_lang_product.specs.Refusing.{HaveNoBranch, IsGraphRefusal};

use crate::answer::{Example, Intersection};
use crate::joints::Joints;
use crate::letters::{joint_word, number_at};
use crate::searching::verdict_on;
use omega_hoa_automaton::{Automaton, Refusal};
use omega_lang_lasso_word::LassoWord;
use omega_lang_product::{PairGraph, pair_graph, places_among};
use omega_lang_runs::{Verdict, edge_places};
use omega_text::Seq;
use std::alloc::Global;

/// Returns whether `one` and `other` accept a common word. If they do, returns words that both accept, and an accepting
/// lasso of `one` along which it accepts them. Propositions that have one name are the same, whatever their numbers are
/// (HOA v1, AP).
///
/// Looks for an accepting lasso in the graph of the product of both, and takes its word. The product itself is not
/// made: labels are joined for the edges of the lasso alone, and none is too deep or too large for a letter.
///
/// Fails as `pair_graph` does for `one` and `other`: with [TaskFault::UniversalBranch] if a start or an edge lists
/// several states, with [TaskFault::TooManyPropositions] or with [TaskFault::TooLarge]. What follows fails for want of
/// memory alone. Takes the time of `pair_graph` and `lasso_in_table`. A lasso takes time linear in the edges of both
/// automata, the time of `places_among` for the names of each, and that of `conjuncts_of_both` for each of its edges.
pub fn intersection(
    alloc: Global,
    one: &Automaton,
    other: &Automaton,
) -> Result<Intersection, Refusal>
    ensures right { IfOk result (IsIntersection one.now other.now) }
    ensures given { OnOk result (HaveNoBranch one.now other.now) }
    ensures refused { IfErr result (IsGraphRefusal one.now other.now) }
{
    match pair_graph(alloc, one, other) {
        Ok(graph) => intersection_by_search(alloc, one, other, &graph),
        Err(refusal) => Err(refusal),
    }
}

/// Looks for an accepting lasso in the graph of the product of `one` and `other`, and returns what it says of the two.
fn intersection_by_search(
    alloc: Global,
    one: &Automaton,
    other: &Automaton,
    graph: &PairGraph,
) -> Result<Intersection, Refusal>
    requires graph { IsPairGraph one.now other.now graph.now }
    requires plain { HaveNoBranch one.now other.now }
    requires named { length graph.now.propositions.items < 2 ^ 32 }
    ensures right { IfOk result (IsIntersection one.now other.now) }
    ensures memory { IsOkUnless result Refusal.Memory }
{
    one.keeps_limits();
    other.keeps_limits();
    match verdict_on(alloc, graph) {
        Ok(verdict) => intersection_of_verdict(alloc, one, other, graph, &verdict),
        Err(refusal) => Err(refusal),
    }
}

/// Returns what a verdict on the graph of the product of `one` and `other` says of the two.
fn intersection_of_verdict(
    alloc: Global,
    one: &Automaton,
    other: &Automaton,
    graph: &PairGraph,
    verdict: &Verdict,
) -> Result<Intersection, Refusal>
    requires graph { HavePairGraph one.now other.now graph.now }
    requires named { length graph.now.propositions.items < 2 ^ 32 }
    requires verdict { IsVerdictOn graph.now verdict.now }
    ensures right { IfOk result (IsIntersection one.now other.now) }
    ensures memory { IsOkUnless result Refusal.Memory }
{
    match verdict {
        Verdict::Empty => Ok(Intersection::Empty),
        Verdict::Lasso { stem, cycle } => {
            let example = example_of(alloc, one, other, graph, stem.as_slice(), cycle.as_slice())?;
            Ok(Intersection::Common(example))
        }
    }
}

/// Returns the words along a lasso of the product of `one` and `other`, and the lasso of `one` that it takes.
fn example_of(
    alloc: Global,
    one: &Automaton,
    other: &Automaton,
    graph: &PairGraph,
    stem: &[u32],
    cycle: &[u32],
) -> Result<Example, Refusal>
    requires graph { HavePairGraph one.now other.now graph.now }
    requires named { length graph.now.propositions.items < 2 ^ 32 }
    requires lasso { IsLassoOn graph.now stem.now cycle.now }
    ensures example { IfOk result
        (IsExample one.now (HaveStrings one.now other.now) (AcceptBoth one.now other.now)) }
    ensures memory { IsOkUnless result Refusal.Memory }
{
    let word = word_along(alloc, one, other, graph, stem, cycle)?;
    let firsts = graph.edges.firsts.as_slice();
    let before = numbers_at(alloc, firsts, stem)?;
    let around = numbers_at(alloc, firsts, cycle)?;
    Ok(Example {
        word,
        stem: Seq::from_vec(before),
        cycle: Seq::from_vec(around),
    })
}

/// Returns the word along the edges of a lasso of the product of `one` and `other`.
fn word_along(
    alloc: Global,
    one: &Automaton,
    other: &Automaton,
    graph: &PairGraph,
    stem: &[u32],
    cycle: &[u32],
) -> Result<LassoWord, Refusal>
    requires { length graph.now.propositions.items < 2 ^ 32 }
    ensures word { IfOk result
        (λ word. word ≡ word_of_joints one.now other.now graph.now stem.now cycle.now) }
    ensures memory { IsOkUnless result Refusal.Memory }
{
    let names = graph.propositions.as_slice();
    let places = edge_places(alloc, one)?;
    let other_places = edge_places(alloc, other)?;
    let numbers = places_among(alloc, names, one.propositions())?;
    let other_numbers = places_among(alloc, names, other.propositions())?;
    let joints = Joints {
        one,
        other,
        graph,
        places: places.as_slice(),
        other_places: other_places.as_slice(),
        numbers: numbers.as_slice(),
        other_numbers: other_numbers.as_slice(),
    };
    joint_word(alloc, &joints, stem, cycle)
}

/// Returns the number at each of `places`, 0 past the last.
fn numbers_at(alloc: Global, numbers: &[u32], places: &[u32]) -> Result<Vec<u32>, Refusal>
    ensures numbers { IfOk result
        (λ found. found.items ≡ map (λ place. get_or numbers.now place 0) places.now) }
    ensures memory { IsOkUnless result Refusal.Memory }
{
    let mut found = Vec::with_capacity(alloc, places.len())?;
    for place in places {
        found.push(number_at(numbers, *place))?;
    }
    Ok(found)
}
