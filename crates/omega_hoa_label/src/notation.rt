ghost use Rattle.std.specs.Prelude.{◌≡◌, count_by, false, filter, nat_lt};
ghost use Rattle.std.specs.List.{list_all, list_any};
ghost use Rattle.std.specs.Option.{SomeIff};
ghost use Rattle.omega_hoa_label.specs.Bare.{is_alias, is_bare};
ghost use Rattle.omega_hoa_label.specs.private.layout.Propositions.{proposition_below};

use crate::label::LabelNode;
use omega_text::Seq;
use std::alloc::Global;
use std::mem;

/// How a label is written: its nodes in postfix order, its alias names one after another, and its depth as it is
/// counted.
#[derive(Debug, Drop)]
pub(crate) struct Notation {
    pub(crate) nodes: Seq<LabelNode>,
    pub(crate) names: Seq<u8>,
    pub(crate) depth: u32,
}

impl Notation {
    /// Drops the nodes of parentheses.
    #[inline(never)]
    pub(crate) fn drop_parentheses(&mut self, alloc: Global)
        ensures nodes { self.new.nodes ≡ filter is_bare self.old.nodes }
        ensures names { self.new.names ≡ self.old.names }
        ensures depth { self.new.depth ≡ self.old.depth }
    {
        let nodes = mem::replace(&mut self.nodes, Seq::new(alloc));
        self.nodes = Seq::from_vec(bare_nodes(nodes.into_vec()));
    }
}

/// Whether one of the nodes is an alias.
pub(crate) fn any_alias(nodes: &[LabelNode]) -> bool
    ensures { result ≡ list_any is_alias nodes.now }
{
    nodes.iter().any(|node| stands_for_more(*node))
}

/// Whether `node` is an alias.
fn stands_for_more(node: LabelNode) -> bool
    ensures { result ≡ is_alias node }
{
    match node {
        LabelNode::Alias(_) => true,
        _ => false,
    }
}

/// Returns the number of nodes that are no parentheses, if no node is an alias.
pub(crate) fn count_bare(nodes: &[LabelNode]) -> Option<usize>
    ensures { SomeIff result (list_any is_alias nodes.now ≡ false) (count_by is_bare nodes.now) }
{
    let mut count = 0;
    for node in nodes {
        match node {
            LabelNode::Alias(_) => return None,
            LabelNode::Group => {}
            _ => count += 1,
        }
    }
    Some(count)
}

/// Returns the nodes that are no parentheses, in the memory of `nodes`.
fn bare_nodes(nodes: Vec<LabelNode>) -> Vec<LabelNode>
    ensures { result.items ≡ filter is_bare nodes.items }
{
    let mut nodes = nodes;
    nodes.retain(|node| stays(*node));
    nodes
}

/// Whether `node` stays when parentheses are dropped.
pub(crate) fn stays(node: LabelNode) -> bool
    ensures { result ≡ is_bare node }
{
    match node {
        LabelNode::Group => false,
        _ => true,
    }
}

/// Whether the propositions of `nodes` are all below `count`.
pub(crate) fn all_propositions_below(nodes: &[LabelNode], count: u32) -> bool
    ensures { result ≡ list_all (λ node. proposition_below count node) nodes.now }
{
    nodes.iter().all(|node| is_proposition_below(*node, count))
}

/// Whether the proposition of `node` is below `count`, if it has one.
pub(crate) fn is_proposition_below(node: LabelNode, count: u32) -> bool
    ensures { result ≡ proposition_below count node }
{
    match node {
        LabelNode::Proposition(number) => number < count,
        _ => true,
    }
}
