//! What an example of a product says of its first automaton.

ghost use Rattle.std.specs.Prelude.{◌≡◌, IfErr, IfOk, IsOkUnless};
ghost use Rattle.omega_lang_product.specs.Refusing.{IsGraphRefusal};
ghost use Rattle.omega_ltl_satisfaction.specs.private.Meeting.{IsFirstAnswer, IsFirstExample};
ghost use Rattle.omega_ltl_satisfaction.specs.private.Meeting.{example_of_firsts, firsts_along as firsts_of};

use omega_hoa_automaton::{Automaton, Refusal};
use omega_lang_intersection::{Example, Intersection};
use omega_lang_product::pair_graph;
use omega_text::Seq;
use std::alloc::Global;

/// Returns `answer`, of the product of `one` and `other`, with the lasso of `one` that its lasso takes. Fails as
/// `pair_graph` does for the two.
pub(crate) fn first_answer(
    alloc: Global,
    one: &Automaton,
    other: &Automaton,
    answer: Intersection,
) -> Result<Intersection, Refusal>
    ensures answer { IfOk result (IsFirstAnswer one.now other.now answer) }
    ensures refused { IfErr result (IsGraphRefusal one.now other.now) }
{
    match answer {
        Intersection::Empty => Ok(Intersection::Empty),
        Intersection::Common(example) => match first_example(alloc, one, other, example) {
            Ok(first) => Ok(Intersection::Common(first)),
            Err(refusal) => Err(refusal),
        },
    }
}

/// Returns `example`, of the product of `one` and `other`, with the lasso of `one` that its lasso takes.
fn first_example(
    alloc: Global,
    one: &Automaton,
    other: &Automaton,
    example: Example,
) -> Result<Example, Refusal>
    ensures example { IfOk result (IsFirstExample one.now other.now example) }
    ensures refused { IfErr result (IsGraphRefusal one.now other.now) }
{
    match pair_graph(alloc, one, other) {
        Ok(graph) => example_along(alloc, graph.edges.firsts.as_slice(), example),
        Err(refusal) => Err(refusal),
    }
}

/// Returns `example` with these numbers of edges in place of those of its lasso.
fn example_along(alloc: Global, firsts: &[u32], example: Example) -> Result<Example, Refusal>
    ensures example { IfOk result (λ first. first ≡ example_of_firsts firsts.now example) }
    ensures memory { IsOkUnless result Refusal.Memory }
{
    let stem = firsts_along(alloc, firsts, example.stem.as_slice())?;
    let cycle = firsts_along(alloc, firsts, example.cycle.as_slice())?;
    Ok(Example {
        word: example.word,
        stem,
        cycle,
    })
}

/// Returns the numbers of the edges that the edges `numbers` of a product take, 0 past the last.
fn firsts_along(alloc: Global, firsts: &[u32], numbers: &[u32]) -> Result<Seq<u32>, Refusal>
    ensures firsts { IfOk result (λ found. found ≡ firsts_of firsts.now numbers.now) }
    ensures memory { IsOkUnless result Refusal.Memory }
{
    let mut found = Vec::with_capacity(alloc, numbers.len())?;
    for number in numbers {
        let first = firsts.get(*number as usize).copied().unwrap_or(0);
        found.push(first)?;
    }
    Ok(Seq::from_vec(found))
}
