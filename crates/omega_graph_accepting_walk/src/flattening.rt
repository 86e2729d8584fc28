//! A formula as a list of nodes that name their parts.
ghost use Rattle.std.specs.Prelude.{◌≡◌, ◌<◌, ◌++◌, [], ◌∷◌, length, All, IfOk, OnOk, IsOkUnless};
ghost use Rattle.omega_graph_accepting_walk.specs.private.Formulas.{ArePartsOf, HasParts, IsFormula, IsMade};
ghost use Rattle.omega_graph_accepting_walk.specs.private.Formulas.{node_tree, tree_at, trees_at, trees_with};

use crate::node::Node;
use crate::places::Places;
use omega_hoa_acceptance::{Acc, AccNode};
use omega_text::Refusal;
use std::alloc::Global;

/// Appends the nodes of `formula` to `nodes`, parts first, and returns the place of its root. Linear in the formula,
/// without recursion.
#[tactic(auto, using(crate::proofs::NodesPushed::top_within))]
pub(crate) fn add_formula(
    alloc: Global,
    nodes: &mut Vec<Node>,
    formula: &Acc,
) -> Result<u32, Refusal>
    requires { IsFormula nodes.old.items }
    ensures formula { OnOk result (IsFormula nodes.new.items) }
    ensures place { IfOk result (λ place. place < length nodes.new.items) }
    ensures tree { IfOk result (λ place. tree_at nodes.new.items place ≡ formula.now) }
    ensures memory { IsOkUnless result Refusal.Memory }
{
    let mut places = Places::new(alloc);
    for node in formula.nodes() {
        add_node(nodes, &mut places, *node)?;
    }
    Ok(places.pop())
}

/// Appends `node`, whose parts are at the places on top, and puts its own place in place of theirs.
fn add_node(nodes: &mut Vec<Node>, places: &mut Places, node: AccNode) -> Result<(), Refusal>
    requires places { ArePartsOf nodes.old.items places.old }
    requires parts { HasParts (length places.old) node }
    ensures parts { OnOk result (ArePartsOf nodes.new.items places.new) }
    ensures trees { OnOk result
        (trees_at nodes.new.items places.new ≡ trees_with (trees_at nodes.old.items places.old) node) }
    ensures memory { IsOkUnless result Refusal.Memory }
{
    let next = next_node(nodes.as_slice(), places, node);
    let place = push_node(nodes, next)?;
    places.push(place)?;
    Ok(())
}

/// Returns the node for `node`, and pops the places of its parts.
#[tactic(auto, using(crate::proofs::NodesPushed::and_tree, crate::proofs::NodesPushed::or_tree))]
fn next_node(nodes: &[Node], places: &mut Places, node: AccNode) -> Node
    requires within { All (λ place. place < length nodes.now) places.old }
    requires parts { HasParts (length places.old) node }
    ensures made { IsMade (length nodes.now) result }
    ensures within { All (λ place. place < length nodes.now) places.new }
    ensures tree { node_tree (tree_at nodes.now) result ∷ trees_at nodes.now places.new
        ≡ trees_with (trees_at nodes.now places.old) node }
{
    match node {
        AccNode::Constant(value) => Node::Constant(value),
        AccNode::Inf(negated, set) => Node::Inf(negated, set),
        AccNode::Fin(negated, set) => Node::Fin(negated, set),
        AccNode::And => {
            let parts = top_parts(places);
            Node::And(parts.0, parts.1)
        }
        AccNode::Or => {
            let parts = top_parts(places);
            Node::Or(parts.0, parts.1)
        }
    }
}

/// Pops the places of the two parts on top, and returns them, the left one first.
fn top_parts(places: &mut Places) -> (u32, u32)
    requires { 1 < length places.old }
    ensures { places.old ≡ result.1 ∷ result.0 ∷ places.new }
{
    let second = places.pop();
    let first = places.pop();
    (first, second)
}

/// Appends `node` and returns its place. Also fails with [Refusal::Memory] if there are 2^32 - 1 nodes already.
fn push_node(nodes: &mut Vec<Node>, node: Node) -> Result<u32, Refusal>
    requires formula { IsFormula nodes.old.items }
    requires made { IsMade (length nodes.old.items) node }
    ensures formula { OnOk result (IsFormula nodes.new.items) }
    ensures items { OnOk result (nodes.new.items ≡ nodes.old.items ++ node ∷ []) }
    ensures place { IfOk result (λ place. place ≡ length nodes.old.items) }
    ensures tree { IfOk result
        (λ place. tree_at nodes.new.items place ≡ node_tree (tree_at nodes.old.items) node) }
    ensures memory { IsOkUnless result Refusal.Memory }
{
    let place = nodes.len();
    if place >= u32::MAX as usize {
        return Err(Refusal::Memory);
    }
    nodes.push(node)?;
    Ok(place as u32)
}
