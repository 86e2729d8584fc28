//! Pairs of states in which the environment has no letter.

ghost use Rattle.std.specs.Prelude.{◌≡◌, false, get_or, map, IfErr, IfOk, IsOkUnless, OnOk};
ghost use Rattle.omega_hoa_automaton.specs.Branching.{has_universal_branching};
ghost use Rattle.omega_lang_complement.specs.Complement.{HasComplement};
ghost use Rattle.omega_lang_product.specs.PairGraph.{IsPairGraph};
ghost use Rattle.omega_lang_product.specs.Product.{IsProduct};
ghost use Rattle.omega_lang_product.specs.Refusing.{HaveNoBranch};
ghost use Rattle.omega_lang_runs.specs.Places.{ArePlaces};
ghost use Rattle.omega_synth_check.specs.CounterRefusing.{IsJointRefusal, IsLetterlessRefusal};
ghost use Rattle.omega_synth_check.specs.private.Letterless.{IsBeside, IsLetterlessFound, pair_of, source_of};

use crate::counter_judgement::LetterlessPair;
use crate::ways_out::{numbers_named, ways_out};
use crate::without_letter::{StateWithoutLetter, state_without_letter};
use omega_hoa_automaton::{Automaton, Refusal};
use omega_lang_complement::complement;
use omega_lang_product::{PairGraph, pair_graph, product};
use omega_lang_runs::{EdgePlace, edge_of, edge_places};
use omega_text::{ByteString, Seq};
use std::alloc::Global;

/// Returns a state of `strategy` and one of `specification` to which both come by the same letters and in which the
/// environment has no letter; none if it has one wherever both come. The system controls the propositions whose names
/// are `controlled`.
///
/// Looks in the product of `specification` with the complement of `strategy` for a state in which each letter has an
/// answer at which the specification goes on and the strategy does not. Fails as `complement` does for `strategy`, or
/// else as `product` and `pair_graph` do for `specification` and the complement, or else as `state_without_letter`.
pub(crate) fn letterless_pair(
    alloc: Global,
    specification: &Automaton,
    strategy: &Automaton,
    controlled: &[ByteString],
) -> Result<Option<LetterlessPair>, Refusal>
    requires { has_universal_branching specification.now ≡ false }
    ensures found { IfOk result (IsLetterlessFound specification.now strategy.now controlled.now) }
    ensures given { OnOk result (HasComplement strategy.now) }
    ensures refused { IfErr result
        (IsLetterlessRefusal specification.now strategy.now controlled.now) }
{
    specification.keeps_limits();
    strategy.keeps_limits();
    match complement(alloc, strategy) {
        Ok(rest) => {
            rest.keeps_limits();
            letterless_beside(alloc, specification, strategy, &rest, controlled)
        }
        Err(refusal) => Err(refusal),
    }
}

/// Returns what [letterless_pair] returns, where `rest` is the complement of `strategy`.
fn letterless_beside(
    alloc: Global,
    specification: &Automaton,
    strategy: &Automaton,
    rest: &Automaton,
    controlled: &[ByteString],
) -> Result<Option<LetterlessPair>, Refusal>
    requires { IsBeside specification.now strategy.now rest.now }
    ensures found { IfOk result (IsLetterlessFound specification.now strategy.now controlled.now) }
    ensures refused { IfErr result (IsJointRefusal specification.now rest.now controlled.now) }
{
    let joint = product(alloc, specification, rest)?;
    let graph = pair_graph(alloc, specification, rest)?;
    letterless_in(
        alloc,
        specification,
        strategy,
        rest,
        &joint,
        &graph,
        controlled,
    )
}

/// Returns what [letterless_pair] returns, where `rest` is the complement of `strategy`, and `joint` its product with
/// `specification`, whose graph is `graph`.
fn letterless_in(
    alloc: Global,
    specification: &Automaton,
    strategy: &Automaton,
    rest: &Automaton,
    joint: &Automaton,
    graph: &PairGraph,
    controlled: &[ByteString],
) -> Result<Option<LetterlessPair>, Refusal>
    requires beside { IsBeside specification.now strategy.now rest.now }
    requires product { IsProduct specification.now rest.now joint.now }
    requires graph { IsPairGraph specification.now rest.now graph.now }
    requires unbranched { HaveNoBranch specification.now rest.now }
    ensures found { IfOk result (IsLetterlessFound specification.now strategy.now controlled.now) }
    ensures refused { IfErr result (IsJointRefusal specification.now rest.now controlled.now) }
{
    joint.keeps_limits();
    let flags = ways_out(alloc, rest, strategy.state_count(), graph)?;
    let system = numbers_named(alloc, joint.propositions(), controlled)?;
    let found = state_without_letter(alloc, joint, joint, system.as_slice(), flags.as_slice())?;
    match found {
        None => Ok(None),
        Some(found) => {
            let pair = pair_at(alloc, specification, rest, graph, &found)?;
            Ok(Some(pair))
        }
    }
}

/// Returns the pair of the state that was found in the product of `specification` and `rest` with this graph.
fn pair_at(
    alloc: Global,
    specification: &Automaton,
    rest: &Automaton,
    graph: &PairGraph,
    found: &StateWithoutLetter,
) -> Result<LetterlessPair, Refusal>
    ensures pair { IfOk result (λ pair. pair ≡ pair_of specification.now rest.now graph.now
        found.now.number found.now.stem) }
    ensures memory { IsOkUnless result Refusal.Memory }
{
    let firsts = graph.edges.firsts.as_slice();
    let seconds = graph.edges.seconds.as_slice();
    let places = edge_places(alloc, specification)?;
    let other_places = edge_places(alloc, rest)?;
    let against = number_at(firsts, found.number);
    let own = number_at(seconds, found.number);
    let stem = numbers_at(alloc, firsts, found.stem.as_slice())?;
    Ok(LetterlessPair {
        state: source_of(rest, other_places.as_slice(), own),
        against: source_of(specification, places.as_slice(), against),
        stem: Seq::from_vec(stem),
    })
}

/// Returns the state that the edge with this `number` leaves, found by the `places` of all edges; 0 without an edge.
fn source_of(automaton: &Automaton, places: &[EdgePlace], number: u32) -> u32
    requires { ArePlaces automaton.now places.now }
    ensures { result ≡ source_of automaton.now number }
{
    match edge_of(automaton, places, number) {
        None => 0,
        Some(found) => found.state.number,
    }
}

/// Returns the number at each of `places`, 0 past the last.
fn numbers_at(alloc: Global, numbers: &[u32], places: &[u32]) -> Result<Vec<u32>, Refusal>
    ensures numbers { IfOk result
        (λ found. found.items ≡ map (λ place. get_or numbers.now place 0) places.now) }
    ensures memory { IsOkUnless result Refusal.Memory }
{
    let mut found = Vec::with_capacity(alloc, places.len())?;
    for place in places {
        found.push(number_at(numbers, *place))?;
    }
    Ok(found)
}

/// Returns the number at `place`, 0 past the last.
fn number_at(numbers: &[u32], place: u32) -> u32
    ensures { result ≡ get_or numbers.now place 0 }
{
    numbers.get(place as usize).copied().unwrap_or(0)
}
