//! The labels of edges, lent where they are written.

ghost use Rattle.std.specs.Prelude.{◌≡◌, ◌++◌, IfErr, IfOk, IsOkUnless, OnOk};
ghost use Rattle.omega_text.specs.Cases.{IsMemory};
ghost use Rattle.omega_hoa_label.specs.Postfix.{postfix};
ghost use Rattle.omega_hoa_edges.specs.Labels.{label_at as label_of_edge};
ghost use Rattle.omega_hoa_edges.specs.Labels.{literal as literal_of, valuation_label};

use crate::edge_labels::has_bit;
use omega_hoa_automaton::{EdgeRef, State};
use omega_hoa_label::{Label, LabelNode, LabelNodes};
use omega_text::Refusal;
use std::alloc::Global;
use std::marker::Model;

/// The label of an edge: that of its state or its own, lent, or one that is made for an edge that is written without
/// one. Contracts see the label.
#[derive(Drop)]
pub struct EdgeLabel<'a> {
    held: Held<'a>,
}

/// Where the label is.
#[derive(Drop)]
enum Held<'a> {
    Lent(&'a Label),
    Made(Label),
}

impl<'a> Model for EdgeLabel<'a> {
    ghost use Rattle.omega_hoa_label.specs.Label.{LabelTree};
    ghost use Rattle.omega_hoa_label.specs.contracts.label.Label as expanded_label;
    ghost use Rattle.omega_hoa_edges.specs.private.layout.EdgeLabel.{label_held};

    ghost Value = { LabelTree };

    ghost coded = { expanded_label.the_row.coded };

    ghost view = { λ l. label_held l.held };
}

impl<'a> EdgeLabel<'a> {
    /// Takes a label that is lent.
    pub(crate) fn of_borrowed(label: &'a Label) -> EdgeLabel<'a>
        ensures { result ≡ label.entry.now }
    {
        EdgeLabel {
            held: Held::Lent(label),
        }
    }

    /// Takes a label that is made.
    pub(crate) fn of_owned(label: Label) -> EdgeLabel<'a>
        ensures { result ≡ label }
    {
        EdgeLabel {
            held: Held::Made(label),
        }
    }

    /// Returns the label.
    pub fn get(&self) -> &Label
        ensures { result.now ≡ self.now }
    {
        match &self.held {
            Held::Lent(label) => *label,
            Held::Made(label) => label,
        }
    }

    /// Returns the label as one's own, copied if it is lent.
    pub fn into_label(self, alloc: Global) -> Result<Label, Refusal>
        ensures ok { IfOk result (λ label. label ≡ self.entry) }
        ensures err { IfErr result IsMemory }
    {
        let EdgeLabel { held } = self;
        match held {
            Held::Lent(label) => label.copy_in(alloc),
            Held::Made(label) => Ok(label),
        }
    }
}

/// Returns the label of `edge`, whose index within `state` is `at`, over `count` propositions. It is that of the state,
/// or else its own, or else that of the valuation of the index (HOA v1, semantics of labels and implicit labels). The
/// first two are lent, and only the last takes memory.
///
/// Also fails with [Refusal::Memory] if the label of a valuation is over 256 deep or the number of a proposition does
/// not fit. Neither can happen for an automaton: a state has 2^`count` edges if one of them is written without a label.
pub fn edge_label<'a>(
    alloc: Global,
    count: usize,
    state: &'a State,
    edge: &EdgeRef<'a>,
    at: usize,
) -> Result<EdgeLabel<'a>, Refusal>
    ensures label { IfOk result (λ label. label ≡ label_of_edge count state.now at edge.now) }
    ensures memory { IsOkUnless result Refusal.Memory }
{
    match (&state.label, edge.label()) {
        (Some(label), _) => Ok(EdgeLabel::of_borrowed(label)),
        (None, Some(label)) => Ok(EdgeLabel::of_borrowed(label)),
        (None, None) => Ok(EdgeLabel::of_owned(valuation(alloc, at, count)?)),
    }
}

/// Returns the label of the valuation of `index` over `count` propositions. Also fails with [Refusal::Memory] if it is
/// over 256 deep or a number does not fit.
fn valuation(alloc: Global, index: usize, count: usize) -> Result<Label, Refusal>
    ensures label { IfOk result (λ label. label ≡ valuation_label index count) }
    ensures memory { IsOkUnless result Refusal.Memory }
{
    let mut nodes = LabelNodes::new(alloc);
    push_valuation(&mut nodes, index, count)?;
    match Label::of_postfix(alloc, &nodes) {
        Ok(label) => Ok(label),
        Err(_) => Err(Refusal::Memory),
    }
}

/// Appends the nodes of the label of the valuation of `index` over `count` propositions.
#[tactic(auto, using(crate::proofs::Valuations::valuation_more))]
fn push_valuation(nodes: &mut LabelNodes, index: usize, count: usize) -> Result<(), Refusal>
    ensures nodes { OnOk result (nodes.new ≡ nodes.old ++ postfix (valuation_label index count)) }
    ensures memory { IsOkUnless result Refusal.Memory }
{
    if count == 0 {
        return nodes.push(LabelNode::Constant(true));
    }
    push_literal(nodes, index, 0)?;
    for p in 1..count {
        push_literal(nodes, index, p)?;
        nodes.push(LabelNode::And)?;
    }
    Ok(())
}

/// Appends the nodes of the proposition `p` if it holds in the valuation of `index`, else of its negation. Also fails
/// with [Refusal::Memory] if the number does not fit.
fn push_literal(nodes: &mut LabelNodes, index: usize, p: usize) -> Result<(), Refusal>
    ensures nodes { OnOk result (nodes.new ≡ nodes.old ++ postfix (literal_of index p)) }
    ensures memory { IsOkUnless result Refusal.Memory }
{
    if p > u32::MAX as usize {
        return Err(Refusal::Memory);
    }
    nodes.push(LabelNode::Proposition(p as u32))?;
    if !has_bit(index, p) {
        nodes.push(LabelNode::Not)?;
    }
    Ok(())
}
