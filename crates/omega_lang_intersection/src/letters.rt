//! The letters of the edges of a product, of which only the graph is made.

ghost use Rattle.std.specs.Prelude.{◌≡◌, false, get_or, map, IfOk, IsOkUnless};
ghost use Rattle.omega_hoa_label.specs.Label.{constant};
ghost use Rattle.omega_lang_runs.specs.Places.{ArePlaces};
ghost use Rattle.omega_lang_intersection.specs.private.Letters.{FindsLabels, label_in};
ghost use Rattle.omega_lang_intersection.specs.private.Letters.{joint_conjuncts as conjuncts_of_joint};
ghost use Rattle.omega_lang_intersection.specs.private.Letters.{joint_word as word_of_joints};

use crate::joints::Joints;
use omega_hoa_automaton::{Automaton, Refusal};
use omega_hoa_edges::{conjuncts_of_both, edge_label};
use omega_hoa_label::{Label, LabelNode};
use omega_lang_lasso_word::LassoWord;
use omega_lang_runs::{EdgePlace, edge_of};
use omega_text::Seq;
use std::alloc::Global;

/// Returns the words along the edges `stem` and `cycle` of the product.
pub(crate) fn joint_word(
    alloc: Global,
    joints: &Joints<'_>,
    stem: &[u32],
    cycle: &[u32],
) -> Result<LassoWord, Refusal>
    requires { FindsLabels joints.now }
    ensures word { IfOk result (λ word. word ≡ word_of_joints
        joints.now.one.now joints.now.other.now joints.now.graph.now stem.now cycle.now) }
    ensures memory { IsOkUnless result Refusal.Memory }
{
    let before = letters_along(alloc, joints, stem)?;
    let around = letters_along(alloc, joints, cycle)?;
    LassoWord::over(alloc, joints.graph.propositions.as_slice(), before, around)
}

/// Returns the letters of the edges of the product with these `numbers`, each as its conjuncts.
fn letters_along(
    alloc: Global,
    joints: &Joints<'_>,
    numbers: &[u32],
) -> Result<Vec<Seq<Label>>, Refusal>
    requires { FindsLabels joints.now }
    ensures letters { IfOk result (λ letters. letters.items ≡ map (conjuncts_of_joint
        joints.now.one.now joints.now.other.now joints.now.graph.now) numbers.now) }
    ensures memory { IsOkUnless result Refusal.Memory }
{
    let mut letters = Vec::with_capacity(alloc, numbers.len())?;
    for number in numbers {
        let conjuncts = joint_conjuncts(alloc, joints, *number)?;
        letters.push(Seq::from_vec(conjuncts))?;
    }
    Ok(letters)
}

/// Returns the conjuncts of the labels of the two edges that the edge `number` of the product takes, each once.
fn joint_conjuncts(alloc: Global, joints: &Joints<'_>, number: u32) -> Result<Vec<Label>, Refusal>
    requires { FindsLabels joints.now }
    ensures conjuncts { IfOk result (λ found. found.items ≡ conjuncts_of_joint
        joints.now.one.now joints.now.other.now joints.now.graph.now number) }
    ensures memory { IsOkUnless result Refusal.Memory }
{
    let first = number_at(joints.graph.edges.firsts.as_slice(), number);
    let second = number_at(joints.graph.edges.seconds.as_slice(), number);
    let one = moved_label(alloc, joints.one, joints.places, joints.numbers, first)?;
    let other = moved_label(
        alloc,
        joints.other,
        joints.other_places,
        joints.other_numbers,
        second,
    )?;
    conjuncts_of_both(alloc, &one, &other)
}

/// Returns the label of the edge `number` of `automaton`, whose propositions have these `numbers` among those of both,
/// or `f` if there is no such edge.
fn moved_label(
    alloc: Global,
    automaton: &Automaton,
    places: &[EdgePlace],
    numbers: &[u32],
    number: u32,
) -> Result<Label, Refusal>
    requires { ArePlaces automaton.now places.now }
    ensures label { IfOk result (λ label. label ≡ label_in numbers.now automaton.now number) }
    ensures memory { IsOkUnless result Refusal.Memory }
{
    match edge_of(automaton, places, number) {
        Some(found) => {
            let edge = found.state.edges.edge(found.index);
            let label = edge_label(alloc, numbers.len(), found.state, &edge, found.index)?;
            let moved = label.get().over_propositions(alloc, numbers)?;
            Ok(moved)
        }
        None => false_label(alloc),
    }
}

/// Returns the label `f`.
fn false_label(alloc: Global) -> Result<Label, Refusal>
    ensures label { IfOk result (λ label. label ≡ constant false) }
    ensures memory { IsOkUnless result Refusal.Memory }
{
    let mut nodes = Vec::new(alloc);
    nodes.push(LabelNode::Constant(false))?;
    Label::from_postfix(alloc, nodes)
}

/// Returns the number at `place`, 0 past the last.
pub(crate) fn number_at(numbers: &[u32], place: u32) -> u32
    ensures { result ≡ get_or numbers.now place 0 }
{
    numbers.get(place as usize).copied().unwrap_or(0)
}
