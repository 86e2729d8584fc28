//! The joint edges of a pair of states, without labels, and the pairs that they lead to.

ghost use Rattle.std.specs.Prelude.{◌≡◌, ◌∷◌, [], ◌++◌, true, IfErr, IfOk, IsOkUnless, OnOk};
ghost use Rattle.omega_text.specs.Cases.{never, or_memory, or_task};
ghost use Rattle.omega_lang_product.specs.JointEdges.{joint_of, joints_between, joints_with};
ghost use Rattle.omega_lang_product.specs.Pairs.{targets_between, targets_with, with_pairs};
ghost use Rattle.omega_lang_product.specs.private.Adding.{AddsAmong, numbered_edge, numbered_in};
ghost use Rattle.omega_lang_product.specs.private.Meeting.{HasUnmet, HasUnmetPartner, MeetByIndex};

use crate::found_pairs::FoundPairs;
use crate::joint_edges::JointEdges;
use crate::numbers::number_after;
use crate::row::{Row, RowEdge};
use omega_graph::Edge;
use omega_text::{Numbers, Refusal};
use std::alloc::Global;

/// Appends the joint edges of the pair with the number `from`, one for each two edges of `firsts` and `seconds` that
/// can be taken together, and adds the pairs that they lead to. Each two edges are judged once; with `by_index` only
/// those of one index. Fails with [TaskFault::TooManyPropositions] if it is undecided whether some two can be taken
/// together, and with [TaskFault::TooLarge] if their labels are too deep or too large to be judged.
pub(crate) fn add_joints(
    alloc: Global,
    pairs: &mut FoundPairs,
    edges: &mut JointEdges,
    from: u32,
    firsts: &Row<'_>,
    seconds: &Row<'_>,
    by_index: bool,
) -> Result<(), Refusal>
    requires { by_index ≡ true → MeetByIndex firsts.now.edges.now seconds.now.edges.now }
    ensures pairs { OnOk result (pairs.new ≡
        with_pairs pairs.old (targets_between firsts.now.edges.now seconds.now.edges.now)) }
    ensures edges { OnOk result (AddsAmong pairs.new
        (λ all. joints_between all from (numbered_in firsts.now) (numbered_in seconds.now))
        edges.old edges.new) }
    ensures err { IfErr result
        (or_task (HasUnmet firsts.now.edges.now seconds.now.edges.now) (or_memory never)) }
{
    for at in 0..firsts.edges.len() {
        let number = number_after(firsts.before, at)?;
        let first = RowEdge {
            number,
            edge: &firsts.edges[at],
        };
        let partners = seconds.partners_of(&first, at, by_index)?;
        add_joints_with(alloc, pairs, edges, from, &first, &partners)?;
    }
    Ok(())
}

/// Appends the joint edges of `first` and each edge of `seconds`, and adds the pairs that they lead to.
fn add_joints_with(
    alloc: Global,
    pairs: &mut FoundPairs,
    edges: &mut JointEdges,
    from: u32,
    first: &RowEdge<'_>,
    seconds: &Row<'_>,
) -> Result<(), Refusal>
    ensures pairs { OnOk result (pairs.new ≡
        with_pairs pairs.old (targets_with first.now.edge.now seconds.now.edges.now)) }
    ensures edges { OnOk result (AddsAmong pairs.new
        (λ all. joints_with all from (numbered_edge first.now) (numbered_in seconds.now))
        edges.old edges.new) }
    ensures err { IfErr result
        (or_task (HasUnmetPartner first.now.edge.now seconds.now.edges.now) (or_memory never)) }
{
    for at in 0..seconds.edges.len() {
        let edge = &seconds.edges[at];
        if first.edge.can_meet(alloc, edge)? {
            let number = number_after(seconds.before, at)?;
            let second = RowEdge { number, edge };
            add_joint(alloc, pairs, edges, from, first, &second)?;
        }
    }
    Ok(())
}

/// Appends the joint edge of `first` and `second`, and adds the pair that it leads to.
fn add_joint(
    alloc: Global,
    pairs: &mut FoundPairs,
    edges: &mut JointEdges,
    from: u32,
    first: &RowEdge<'_>,
    second: &RowEdge<'_>,
) -> Result<(), Refusal>
    ensures pairs { OnOk result (pairs.new ≡
        with_pairs pairs.old ((first.now.edge.now.target, second.now.edge.now.target) ∷ [])) }
    ensures edges { OnOk result (AddsAmong pairs.new
        (λ all. joint_of all from (numbered_edge first.now) (numbered_edge second.now) ∷ [])
        edges.old edges.new) }
    ensures memory { IsOkUnless result Refusal.Memory }
{
    let marks = concatenation(alloc, first.edge.marks(), second.edge.marks())?;
    let to = pairs.insert(first.edge.joint_target(second.edge))?;
    edges.push(Edge { from, to }, marks, first.number, second.number)
}

/// Concatenates two lists of numbers.
fn concatenation(alloc: Global, numbers: &[u32], others: &[u32]) -> Result<Numbers, Refusal>
    ensures ok { IfOk result (λ all. all ≡ numbers.now ++ others.now) }
    ensures memory { IsOkUnless result Refusal.Memory }
{
    let mut all = Numbers::from_slice(alloc, numbers)?;
    for other in others {
        all.push(alloc, *other)?;
    }
    Ok(all)
}
