ghost use Rattle.std.specs.Prelude.{◌≡◌, nat_le, not};
ghost use Rattle.std.specs.List.{list_any};
ghost use Rattle.omega_hoa_syntax.specs.Edges.{lengthened};
ghost use Rattle.omega_hoa_automaton.specs.Faults.{are_out_of_range as out_of_range, has_label, passes};
ghost use Rattle.omega_hoa_automaton.specs.private.layout.Body.{IsFoundOfEdges, IsFoundOfShort};

use crate::judging::counts::Counts;
use crate::judging::propositions::label_beyond;
use crate::judging::sets::marks_beyond;
use crate::judging::states::are_out_of_range;
use omega_hoa_syntax::{EdgeSlice, RawEdge, RawEdges, ShortEdge};

/// The faults of a state's edges, and whether they have labels.
#[derive(Clone, Copy)]
pub(crate) struct EdgesFound {
    /// Whether one lists a state that is not below the count of states, or none at all.
    pub target: bool,
    /// Whether one has a mark that is not below the count of sets.
    pub mark: bool,
    /// Whether the label of one mentions a proposition that is not below the count of propositions.
    pub proposition: bool,
    /// Whether one has a label.
    pub labelled: bool,
    /// Whether one has no label.
    pub unlabelled: bool,
}

/// Finds the faults of `edges`. Each edge is looked at once.
pub(crate) fn found_of_edges(edges: &RawEdges, counts: Counts) -> EdgesFound
    ensures { IsFoundOfEdges counts edges.now result }
{
    match edges.slice() {
        EdgeSlice::Short(edges) => found_of_short(edges, counts),
        EdgeSlice::Full(edges) => found_of_full(edges, counts),
    }
}

/// Finds the faults of edges in compact form, which have no labels.
fn found_of_short(edges: &[ShortEdge], counts: Counts) -> EdgesFound
    ensures { IsFoundOfShort counts edges.now result }
{
    let mut found = EdgesFound {
        target: false,
        mark: false,
        proposition: false,
        labelled: false,
        unlabelled: false,
    };
    for edge in edges {
        found.target = found.target || is_target_beyond(edge, counts.states);
        found.mark = found.mark || is_mark_beyond(edge, counts.sets);
        found.unlabelled = found.unlabelled || lacks_label(edge);
    }
    found
}

/// Whether the state that `edge` leads to is not below `count`.
fn is_target_beyond(edge: &ShortEdge, count: u32) -> bool
    ensures { result ≡ out_of_range count (lengthened edge.now).targets }
{
    count <= edge.target
}

/// Whether `edge` has a mark that is not below `count`.
fn is_mark_beyond(edge: &ShortEdge, count: u32) -> bool
    ensures { result ≡ passes (list_any (nat_le count)) (lengthened edge.now).marks }
{
    match edge.mark {
        Some(mark) => count <= mark,
        None => false,
    }
}

/// Whether `edge` has no label, as all edges in compact form.
fn lacks_label(_edge: &ShortEdge) -> bool
    ensures { result ≡ not (has_label (lengthened _edge.now)) }
{
    true
}

/// Finds the faults of edges that are kept as they are.
fn found_of_full(edges: &[RawEdge], counts: Counts) -> EdgesFound
    ensures { IsFoundOfEdges counts edges.now result }
{
    let mut found = EdgesFound {
        target: false,
        mark: false,
        proposition: false,
        labelled: false,
        unlabelled: false,
    };
    for edge in edges {
        let labelled = edge.label.is_some();
        found.target = found.target || are_out_of_range(edge.targets.as_slice(), counts.states);
        found.mark = found.mark || marks_beyond(edge.marks.as_slice(), counts.sets);
        found.proposition = found.proposition
            || label_beyond(edge.label.as_ref(), counts.propositions);
        found.labelled = found.labelled || labelled;
        found.unlabelled = found.unlabelled || !labelled;
    }
    found
}
