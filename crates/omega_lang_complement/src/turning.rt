//! A state of a complement.

ghost use Rattle.std.specs.Prelude.{◌≡◌, ◌↔◌, ◌++◌, IsTrue, IfErr, IfOk, OnOk, Some, IsOkUnless};
ghost use Rattle.std.specs.List.{All};
ghost use Rattle.omega_hoa_label.specs.Shape.{FitsALabel};
ghost use Rattle.omega_lang_complement.specs.Judged.{JudgedFit, RestFitsAText};
ghost use Rattle.omega_hoa_edges.specs.AutomatonLabels.{labels_of as labels_of_state};
ghost use Rattle.omega_hoa_edges.specs.Letters.{AreExclusive};
ghost use Rattle.omega_lang_complement.specs.Letters.{LacksLetter};
ghost use Rattle.omega_lang_complement.specs.Written.{IsMissing, IsTurned, further_edges};
ghost use Rattle.omega_lang_complement.specs.Written.{turned_edges as edges_turned, turned_with};
ghost use Rattle.omega_lang_complement.specs.private.Turned.{AreFittingOf, IsRefusalOf, IsStateRefusal};
ghost use Rattle.omega_hoa_edges.specs.Fitting.{FitsAText, IsLarge};
ghost use Rattle.omega_hoa_edges.specs.Labels.{is_full as has_all_edges};

use crate::rest::missing_label;
use omega_hoa_automaton::{EdgeRef, State, StateName};
use omega_hoa_edges::{StateLabels, check_exclusive_labels, is_full, labels_of, written_form};
use omega_hoa_label::{Label, RawLabel};
use omega_hoa_syntax::{RawEdge, RawEdges, RawState};
use omega_text::{ByteString, Marks, Numbers, Refusal};
use std::alloc::Global;

/// A state of a complement, and whether it has an edge to the sink.
#[derive(Drop)]
pub(crate) struct Turned {
    pub(crate) state: RawState,
    pub(crate) lacks: bool,
}

/// Returns `state` with an edge for each letter. `count` is the number of propositions, and `sink` the number of the
/// sink. Fails with [TaskFault::TooManyPropositions], [TaskFault::TooLarge] or [TaskFault::NotDeterministic].
pub(crate) fn turned_state(
    alloc: Global,
    count: usize,
    sink: u32,
    state: &State,
) -> Result<Turned, Refusal>
    ensures turned { IfOk result (λ turned. IsTurned count sink state.now turned.state) }
    ensures lacks { IfOk result
        (λ turned. IsTrue turned.lacks ↔ LacksLetter (labels_of_state count state.now)) }
    ensures apart { OnOk result (AreExclusive (labels_of_state count state.now)) }
    ensures fitting { OnOk result (AreFittingOf count state.now) }
    ensures err { IfErr result (IsRefusalOf count state.now) }
{
    let labels = labels_of(alloc, count, state)?;
    turned_by(alloc, count, sink, state, labels.as_slice())
}

/// Returns `state` with an edge for each letter, as `turned_state` does. `labels` are those of its edges.
fn turned_by(
    alloc: Global,
    count: usize,
    sink: u32,
    state: &State,
    labels: &[Label],
) -> Result<Turned, Refusal>
    requires labels { labels.now ≡ labels_of_state count state.now }
    requires fits { All FitsALabel labels.now }
    ensures turned { IfOk result (λ turned. IsTurned count sink state.now turned.state) }
    ensures lacks { IfOk result
        (λ turned. IsTrue turned.lacks ↔ LacksLetter (labels_of_state count state.now)) }
    ensures apart { OnOk result (AreExclusive (labels_of_state count state.now)) }
    ensures fitting { OnOk result (AreFittingOf count state.now) }
    ensures err { IfErr result (IsRefusalOf count state.now) }
{
    let missing = missing_letters_of(alloc, count, state, labels)?;
    let lacks = missing.is_some();
    let mut edges = turned_edges(alloc, count, state, labels)?;
    add_further(alloc, &mut edges, missing, sink)?;
    let name = name_of(alloc, state)?;
    Ok(Turned {
        state: RawState {
            label: None,
            number: state.number,
            name,
            marks: Marks::absent(),
            edges,
        },
        lacks,
    })
}

/// Judges that each letter has at most one edge, and returns the label of the letters that `state` lacks, or none. A
/// state with an edge for each valuation needs no judging. Fails with [TaskFault::TooManyPropositions],
/// [TaskFault::TooLarge] or [TaskFault::NotDeterministic].
fn missing_letters_of(
    alloc: Global,
    count: usize,
    state: &State,
    labels: &[Label],
) -> Result<Option<RawLabel>, Refusal>
    requires { labels.now ≡ labels_of_state count state.now }
    ensures missing { IfOk result (IsMissing labels.now) }
    ensures apart { OnOk result (AreExclusive labels.now) }
    ensures judged { OnOk result (JudgedFit (has_all_edges count state.now) labels.now) }
    ensures written { OnOk result (RestFitsAText labels.now) }
    ensures err { IfErr result
        (IsStateRefusal (has_all_edges count state.now) labels.now state.now.number) }
{
    if is_full(count, state) {
        return Ok(None);
    }
    let state = StateLabels {
        number: state.number,
        labels,
    };
    check_exclusive_labels(alloc, &state)?;
    missing_label(alloc, &state)
}

/// Returns the edges of `state`, with its label and its marks moved to them. Fails with [TaskFault::TooLarge] if a
/// written label is deeper than `MOST_DEPTH` or has over `MOST_SIZE` atoms and operators.
fn turned_edges(
    alloc: Global,
    count: usize,
    state: &State,
    labels: &[Label],
) -> Result<RawEdges, Refusal>
    requires labels { labels.now ≡ labels_of_state count state.now }
    requires fits { All FitsALabel labels.now }
    ensures edges { IfOk result (λ edges. edges ≡ edges_turned count state.now) }
    ensures written { OnOk result (All FitsAText labels.now) }
    ensures err { IfErr result
        (IsStateRefusal (has_all_edges count state.now) labels.now state.now.number) }
{
    let mut edges = RawEdges::new(alloc);
    for (at, label) in labels.iter().enumerate() {
        let edge = state.edges.edge(at);
        let turned = turned_edge(alloc, state, label, &edge)?;
        edges.push(alloc, turned)?;
    }
    Ok(edges)
}

/// Returns the edge `edge` of `state` with the label `label`. Fails with [TaskFault::TooLarge] if the written label is
/// deeper than `MOST_DEPTH` or has over `MOST_SIZE` atoms and operators.
fn turned_edge(
    alloc: Global,
    state: &State,
    label: &Label,
    edge: &EdgeRef<'_>,
) -> Result<RawEdge, Refusal>
    requires { FitsALabel label.now }
    ensures edge { IfOk result (λ turned. turned ≡ turned_with label.now state.now edge.now) }
    ensures written { OnOk result (FitsAText label.now) }
    ensures err { IfErr result (IsLarge (FitsAText label.now → ⊥)) }
{
    let label = written_form(alloc, label)?;
    let targets = Numbers::from_slice(alloc, edge.targets())?;
    let mut marks = Numbers::from_slice(alloc, state.marks.as_slice())?;
    add_all(alloc, &mut marks, edge.marks())?;
    Ok(RawEdge {
        label: Some(label),
        targets,
        marks: Marks::of(marks),
    })
}

/// Appends `others` to `numbers`.
fn add_all(alloc: Global, numbers: &mut Numbers, others: &[u32]) -> Result<(), Refusal>
    ensures numbers { OnOk result (numbers.new ≡ numbers.old ++ others.now) }
    ensures memory { IsOkUnless result Refusal.Memory }
{
    for other in others {
        numbers.push(alloc, *other)?;
    }
    Ok(())
}

/// Appends the edge to the sink, if letters are missing.
fn add_further(
    alloc: Global,
    edges: &mut RawEdges,
    missing: Option<RawLabel>,
    sink: u32,
) -> Result<(), Refusal>
    ensures edges { OnOk result (edges.new ≡ edges.old ++ further_edges sink missing) }
    ensures memory { IsOkUnless result Refusal.Memory }
{
    if let Some(label) = missing {
        edges.push(
            alloc,
            RawEdge {
                label: Some(label),
                targets: Numbers::one(sink),
                marks: Marks::absent(),
            },
        )?;
    }
    Ok(())
}

/// Copies the name of `state`.
fn name_of(alloc: Global, state: &State) -> Result<StateName, Refusal>
    ensures name { IfOk result (λ name. name ≡ state.now.name) }
    ensures memory { IsOkUnless result Refusal.Memory }
{
    match state.name.as_slice() {
        None => Ok(StateName::absent()),
        Some(bytes) => {
            let bytes = ByteString::from_slice(alloc, bytes)?;
            Ok(StateName::of(alloc, bytes)?)
        }
    }
}
