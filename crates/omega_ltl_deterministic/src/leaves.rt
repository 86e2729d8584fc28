//! The leaves of a formula, each as a deterministic automaton.
ghost use Rattle.std.specs.Prelude.{◌<◌, IfErr, length};
ghost use Rattle.omega_ltl_determinization.specs.Refusing.{IsLarge};

use crate::demand_graph::automaton_of_demands;
use crate::leaf_formula::leaf_formula;
use crate::question::Question;
use omega_graph_search::number_of;
use omega_ltl_determinization::MOST_LEAF_NAMES;
use omega_ltl_formula::Formula;
use omega_ltl_parity_product::{Leaf, leaf_of};
use omega_text::{ByteString, Refusal, TaskFault};
use std::alloc::{AllocError, Global};

/// Returns the leaves of a formula that these questions ask for. Fails with [`TaskFault::TooLarge`] if one has over
/// [`MOST_LEAF_NAMES`] names or passes another limit.
pub(crate) fn leaves_of(
    alloc: Global,
    formula: &Formula,
    questions: &[Question],
) -> Result<Vec<Leaf>, Refusal>
    ensures { IfErr result IsLarge }
{
    let mut leaves = Vec::with_capacity(alloc, questions.len())?;
    for question in questions {
        leaves.push(leaf(alloc, formula, *question)?)?;
    }
    Ok(leaves)
}

/// Returns the leaf of a formula that a question asks for.
fn leaf(alloc: Global, formula: &Formula, question: Question) -> Result<Leaf, Refusal>
    ensures { IfErr result IsLarge }
{
    // Questions are on nodes: no formula comes to others.
    if question.node >= formula.nodes().len() {
        return Err(Refusal::Task(TaskFault::TooLarge));
    }
    let part = leaf_formula(alloc, formula, question)?;
    if part.names().len() > MOST_LEAF_NAMES as usize {
        return Err(Refusal::Task(TaskFault::TooLarge));
    }
    let places = places_of(alloc, part.names(), formula.names())?;
    let positive = automaton_of_demands(alloc, &part, false)?;
    let negative = automaton_of_demands(alloc, &part, true)?;
    leaf_of(alloc, &positive, &negative, places)
}

/// Returns the places of names among others, all of which they are among.
fn places_of(
    alloc: Global,
    names: &[ByteString],
    others: &[ByteString],
) -> Result<Vec<u32>, AllocError> {
    let mut places = Vec::with_capacity(alloc, names.len())?;
    for name in names {
        places.push(place_of(name, others))?;
    }
    Ok(places)
}

/// Returns the place of a name among others, or their count.
fn place_of(name: &ByteString, others: &[ByteString]) -> u32 {
    for (place, other) in others.iter().enumerate() {
        if *other == *name {
            return number_of(place);
        }
    }
    number_of(others.len())
}
