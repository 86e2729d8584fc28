//! Whether a label can be true where the environment's letter is given.

ghost use Rattle.std.specs.Prelude.{◌≡◌, ◌↔◌, IfErr, IfOk, IsOkUnless, IsTrue, map};
ghost use Rattle.omega_hoa_label.specs.declared.label.LabelNode.TheVariants.{Proposition};
ghost use Rattle.omega_hoa_satisfiable.specs.Undecided.{IsUndecidedLabel};
ghost use Rattle.omega_synth_game.specs.Answering.{CanAnswer, restricted};
ghost use Rattle.omega_synth_controllers.specs.Strategies.{is_controlled};
ghost use Rattle.omega_synth_game.specs.Letters.{holds_in};
ghost use Rattle.omega_synth_game.specs.private.Restricted.{restricted_node};

use omega_hoa_label::{Label, LabelNode, LabelNodes, ROOM};
use omega_hoa_satisfiable::is_satisfiable;
use omega_text::Refusal;
use std::alloc::Global;

/// Whether `label` is true at some letter that agrees with the environment's `letter`, which lists the propositions
/// that hold, on all propositions but the `controlled` ones.
///
/// Each input is replaced by a constant, and what is left is judged. Fails with [TaskFault::TooManyPropositions] if
/// that is left undecided.
pub(crate) fn can_answer(
    alloc: Global,
    label: &Label,
    controlled: &[u32],
    letter: &[u32],
) -> Result<bool, Refusal>
    ensures judged { IfOk result
        (λ possible. IsTrue possible ↔ CanAnswer controlled.now label.now (holds_in letter.now)) }
    ensures refused { IfErr result
        (IsUndecidedLabel (restricted controlled.now letter.now label.now)) }
{
    let left = label_left(alloc, label, controlled, letter)?;
    is_satisfiable(alloc, &left)
}

/// Returns `label` with a constant in place of each input. It is as deep and as large. Linear in the label, without
/// recursion.
fn label_left(
    alloc: Global,
    label: &Label,
    controlled: &[u32],
    letter: &[u32],
) -> Result<Label, Refusal>
    ensures label { IfOk result (λ left. left ≡ restricted controlled.now letter.now label.now) }
    ensures memory { IsOkUnless result Refusal.Memory }
{
    let mut room = ROOM;
    let nodes = nodes_left(alloc, label.nodes(&mut room), controlled, letter)?;
    Label::of_postfix(alloc, &nodes)
}

/// Returns `nodes` with a constant in place of each input.
fn nodes_left(
    alloc: Global,
    nodes: &[LabelNode],
    controlled: &[u32],
    letter: &[u32],
) -> Result<LabelNodes, Refusal>
    ensures nodes { IfOk result
        (λ left. left ≡ map (restricted_node controlled.now letter.now) nodes.now) }
    ensures memory { IsOkUnless result Refusal.Memory }
{
    let mut left = LabelNodes::new(alloc);
    for node in nodes {
        left.push(node_left(*node, controlled, letter))?;
    }
    Ok(left)
}

/// Returns `node`, with a constant in place of an input.
fn node_left(node: LabelNode, controlled: &[u32], letter: &[u32]) -> LabelNode
    ensures { result ≡ restricted_node controlled.now letter.now node }
{
    match node {
        LabelNode::Proposition(number) => proposition_left(number, controlled, letter),
        other => other,
    }
}

/// Returns a proposition if it is `controlled`, or else the constant that it is in the `letter`.
fn proposition_left(number: u32, controlled: &[u32], letter: &[u32]) -> LabelNode
    ensures { result ≡ restricted_node controlled.now letter.now (Proposition number) }
{
    if is_among(controlled, number) {
        LabelNode::Proposition(number)
    } else {
        LabelNode::Constant(is_among(letter, number))
    }
}

/// Whether `number` is one of `numbers`.
pub(crate) fn is_among(numbers: &[u32], number: u32) -> bool
    ensures { result ≡ is_controlled numbers.now number }
{
    numbers.iter().any(|other| *other == number)
}
