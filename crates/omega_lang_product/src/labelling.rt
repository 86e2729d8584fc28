//! The edges of a product with their labels.

ghost use Rattle.std.specs.Prelude.{◌≡◌, ◌<◌, ◌≤◌, ◌+◌, ◌-◌, ℕ, List, get_or, length, map, IfErr, IfOk};
ghost use Rattle.omega_hoa_edges.specs.Conjuncts.{joined as joined_labels};
ghost use Rattle.omega_hoa_edges.specs.Fitting.{IsLarge};
ghost use Rattle.omega_hoa_expression.specs.Limits.{most_depth};
ghost use Rattle.omega_hoa_label.specs.Raw.{raw_depth};
ghost use Rattle.omega_hoa_label.specs.Writing.{label_written};
ghost use Rattle.omega_lang_product.specs.JointEdges.{Joint};
ghost use Rattle.omega_lang_product.specs.Product.{joint_edges_of};
ghost use Rattle.omega_lang_product.specs.Refusing.{HasDeepMeeting};
ghost use Rattle.omega_lang_product.specs.Written.{raw_edge};
ghost use Rattle.omega_lang_product.specs.private.Explored.{AreMade, IsExplored};
ghost use Rattle.omega_lang_product.specs.private.Labelling.{AreJointsFrom, HasDeepLabel};
ghost use Rattle.omega_lang_product.specs.private.Labelling.{IsDeep, IsJointAt, labelled};
ghost use Rattle.omega_lang_product.specs.private.Operands.{AreTabled};

use crate::explored::Explored;
use crate::joint_edges::JointEdges;
use crate::operands::Operands;
use crate::pairs::pair_at;
use crate::row::Row;
use omega_hoa_edges::{joined_label, written_form};
use omega_hoa_label::{Label, RawLabel};
use omega_hoa_syntax::{RawEdge, RawEdges};
use omega_text::{Marks, Numbers, Refusal};
use std::alloc::Global;

/// Returns the edges that leave the pair with the number `at`, with their labels. Fails with [TaskFault::TooLarge] if a
/// joint label is too deep.
pub(crate) fn edges_leaving(
    alloc: Global,
    operands: &Operands<'_>,
    explored: &Explored,
    at: usize,
) -> Result<RawEdges, Refusal>
    requires tabled { AreTabled operands.now }
    requires explored { IsExplored operands.now.one.now operands.now.other.now explored.now }
    requires made { AreMade operands.now.tables.now explored.now }
    requires below { at < length explored.now.pairs.keys }
    ensures ok { IfOk result (λ edges. edges ≡ map raw_edge (joint_edges_of
        operands.now.one.now operands.now.other.now explored.now.pairs.keys
        (get_or explored.now.pairs.keys at (0, 0)))) }
    ensures err { IfErr result (IsLarge (HasDeepMeeting operands.now.one.now operands.now.other.now)) }
{
    let pair = pair_at(&explored.pairs, at);
    let firsts = operands.tables.firsts.row_of(pair.0);
    let seconds = operands.tables.seconds.row_of(pair.1);
    let start = explored.past_before(at);
    let end = explored.past_before(at + 1);
    edges_between(alloc, &explored.edges, &firsts, &seconds, start, end)
}

/// Returns the joint edges from the number `start` on, up to the number `end`, with their labels. Each takes an edge of
/// `firsts` together with one of `seconds`. Fails with [TaskFault::TooLarge] if a label is too deep.
fn edges_between(
    alloc: Global,
    edges: &JointEdges,
    firsts: &Row<'_>,
    seconds: &Row<'_>,
    start: usize,
    end: usize,
) -> Result<RawEdges, Refusal>
    requires { (joints : List Joint)
        × AreJointsFrom edges.now firsts.now seconds.now start end joints }
    ensures ok { IfOk result (λ raw. (joints : List Joint) → AreJointsFrom edges.now firsts.now
        seconds.now start end joints → raw ≡ map raw_edge (map labelled joints)) }
    ensures err { IfErr result (λ refusal. (joints : List Joint) → AreJointsFrom edges.now
        firsts.now seconds.now start end joints → IsLarge (HasDeepLabel joints) refusal) }
{
    let mut raw = RawEdges::new(alloc);
    for place in start..end {
        let edge = labelled_edge(alloc, edges, firsts, seconds, place)?;
        raw.push(alloc, edge)?;
    }
    Ok(raw)
}

/// Returns the joint edge at `place`, with its label. Fails with [TaskFault::TooLarge] if the label is too deep.
fn labelled_edge(
    alloc: Global,
    edges: &JointEdges,
    firsts: &Row<'_>,
    seconds: &Row<'_>,
    place: usize,
) -> Result<RawEdge, Refusal>
    requires { (joint : Joint) × IsJointAt edges.now firsts.now seconds.now place joint }
    ensures ok { IfOk result (λ edge. (joint : Joint)
        → IsJointAt edges.now firsts.now seconds.now place joint → edge ≡ raw_edge (labelled joint)) }
    ensures err { IfErr result (λ refusal. (joint : Joint)
        → IsJointAt edges.now firsts.now seconds.now place joint → IsLarge (IsDeep joint) refusal) }
{
    let first = firsts.edge(edges.first_edge(place));
    let second = seconds.edge(edges.second_edge(place));
    let label = written_label(alloc, first.label(), second.label())?;
    let marks = Numbers::from_slice(alloc, edges.marks(place))?;
    Ok(RawEdge {
        label: Some(label),
        targets: Numbers::one(edges.target(place)),
        marks: Marks::of(marks),
    })
}

/// Returns the joint label of two edges as a text writes it. Fails with [TaskFault::TooLarge] if it is too deep.
fn written_label(alloc: Global, one: &Label, other: &Label) -> Result<RawLabel, Refusal>
    ensures ok { IfOk result (λ raw. raw ≡ label_written (joined_labels one.now other.now)) }
    ensures err { IfErr result
        (IsLarge (most_depth < raw_depth (label_written (joined_labels one.now other.now)))) }
{
    let label = joined_label(alloc, one, other)?;
    written_form(alloc, &label)
}
