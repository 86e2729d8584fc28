ghost use Rattle.std.specs.Prelude.{◌≡◌, false, IfErr, IfOk};
ghost use Rattle.std.specs.List.{AllZip, list_any};
ghost use Rattle.omega_text.specs.Cases.{IsMemory};
ghost use Rattle.omega_hoa_label_text.specs.Expanding.{IsExpansion, expansion};
ghost use Rattle.omega_hoa_automaton.specs.Faults.{is_labelled, passes};
ghost use Rattle.omega_hoa_automaton.specs.Meaning.{IsEdgeOf, IsLabelOf, IsStateOf};
ghost use Rattle.omega_hoa_automaton.specs.private.layout.Findings.{is_faulty, labels_pass};

use crate::edge::Edge;
use crate::edges::Edges;
use crate::making::marks::marks_of;
use crate::state::State;
use omega_hoa_label::{Label, RawLabel};
use omega_hoa_label_text::{Aliases, expand_faultless};
use omega_hoa_syntax::{HeldEdges, RawEdge, RawEdges, RawState};
use omega_text::{Refusal, Seq};
use std::alloc::Global;

/// Makes the states of the body, with their aliases replaced. Their labels have no fault.
pub(crate) fn states_of(
    alloc: Global,
    aliases: &Aliases,
    states: Seq<RawState>,
) -> Result<Seq<State>, Refusal>
    requires { labels_pass is_faulty aliases.now states ≡ false }
    ensures ok { IfOk result (λ made. AllZip (IsStateOf aliases.now) states made) }
    ensures err { IfErr result IsMemory }
{
    let mut made = Vec::with_capacity(alloc, states.len())?;
    for state in states.into_vec() {
        let state = state_of(alloc, aliases, state)?;
        made.push(state)?;
    }
    Ok(Seq::from_vec(made))
}

/// Makes a state of the body, with its aliases replaced.
fn state_of(alloc: Global, aliases: &Aliases, state: RawState) -> Result<State, Refusal>
    requires { is_labelled (λ label. is_faulty (expansion aliases.now label)) state ≡ false }
    ensures ok { IfOk result (λ made. IsStateOf aliases.now state made) }
    ensures err { IfErr result IsMemory }
{
    let RawState {
        label,
        number,
        name,
        marks,
        edges,
    } = state;
    let label = label_of(alloc, aliases, label)?;
    let marks = marks_of(alloc, marks)?;
    let edges = edges_of(alloc, aliases, edges)?;
    Ok(State {
        label,
        number,
        name,
        marks,
        edges,
    })
}

/// Makes the edges of a state, with their aliases replaced. Edges in compact form are moved.
fn edges_of(alloc: Global, aliases: &Aliases, edges: RawEdges) -> Result<Edges, Refusal>
    requires { list_any
        (λ edge. passes (λ label. is_faulty (expansion aliases.now label)) edge.label) edges ≡ false }
    ensures ok { IfOk result (λ made. AllZip (IsEdgeOf aliases.now) edges made) }
    ensures err { IfErr result IsMemory }
{
    match edges.into_held() {
        HeldEdges::Short(edges) => Ok(Edges::from_short(edges)),
        HeldEdges::Full(edges) => {
            let edges = full_edges_of(alloc, aliases, edges)?;
            Ok(Edges::from_seq(edges))
        }
    }
}

/// Makes edges with their aliases replaced.
fn full_edges_of(
    alloc: Global,
    aliases: &Aliases,
    edges: Seq<RawEdge>,
) -> Result<Seq<Edge>, Refusal>
    requires { list_any
        (λ edge. passes (λ label. is_faulty (expansion aliases.now label)) edge.label) edges ≡ false }
    ensures ok { IfOk result (λ made. AllZip (IsEdgeOf aliases.now) edges made) }
    ensures err { IfErr result IsMemory }
{
    let mut made = Vec::with_capacity(alloc, edges.len())?;
    for edge in edges.into_vec() {
        let edge = edge_of(alloc, aliases, edge)?;
        made.push(edge)?;
    }
    Ok(Seq::from_vec(made))
}

/// Makes an edge with its aliases replaced.
fn edge_of(alloc: Global, aliases: &Aliases, edge: RawEdge) -> Result<Edge, Refusal>
    requires { passes (λ label. is_faulty (expansion aliases.now label)) edge.label ≡ false }
    ensures ok { IfOk result (λ made. IsEdgeOf aliases.now edge made) }
    ensures err { IfErr result IsMemory }
{
    let RawEdge {
        label,
        targets,
        marks,
    } = edge;
    let label = label_of(alloc, aliases, label)?;
    let marks = marks_of(alloc, marks)?;
    Ok(Edge {
        label,
        targets,
        marks,
    })
}

/// Makes a label with its aliases replaced, or returns none for none.
fn label_of(
    alloc: Global,
    aliases: &Aliases,
    label: Option<RawLabel>,
) -> Result<Option<Label>, Refusal>
    requires { passes (λ label. is_faulty (expansion aliases.now label)) label ≡ false }
    ensures ok { IfOk result (λ made. IsLabelOf aliases.now label made) }
    ensures err { IfErr result IsMemory }
{
    match label {
        Some(label) => Ok(Some(sound_label(alloc, aliases, label)?)),
        None => Ok(None),
    }
}

/// Replaces the aliases of a label without a fault, so that it is refused for memory only.
fn sound_label(alloc: Global, aliases: &Aliases, label: RawLabel) -> Result<Label, Refusal>
    requires { is_faulty (expansion aliases.now label) ≡ false }
    ensures ok { IfOk result (λ made. IsExpansion aliases.now label made) }
    ensures err { IfErr result IsMemory }
{
    expand_faultless(alloc, label, aliases)
}
