ghost use Rattle.std.specs.Prelude.{◌≡◌, ◌≤◌, ◌+◌, Option, Some, false, option_map, sum_by, IfErr, IfOk};
ghost use Rattle.std.specs.List.{list_any};
ghost use Rattle.std.specs.Option.{option_copied};
ghost use Rattle.omega_text.specs.Cases.{IsMemory};
ghost use Rattle.omega_hoa_label_text.specs.Expanding.{Meaning, expansion, extent_of};
ghost use Rattle.omega_hoa_automaton.specs.Faults.{is_labelled, label_total, passes};
ghost use Rattle.omega_hoa_automaton.specs.Faults.{size_of_meaning, size_under};
ghost use Rattle.omega_hoa_automaton.specs.Limits.{most_total_size};
ghost use Rattle.omega_hoa_automaton.specs.private.layout.Findings.{AreFound, AreJoinedFindings, labels_pass};

use crate::limits::MOST_TOTAL_SIZE;
use omega_hoa_expression::{MOST_DEPTH, MOST_SIZE};
use omega_hoa_label::RawLabel;
use omega_hoa_label_text::{Aliases, Extent};
use omega_hoa_syntax::{EdgeSlice, RawEdge, RawEdges, RawState};
use omega_text::Refusal;
use std::alloc::Global;

/// The faults and the size of labels with their aliases replaced.
#[derive(Clone, Copy)]
pub(crate) struct Findings {
    /// Whether one reaches an undefined alias.
    pub undefined: bool,
    /// Whether one is too deep.
    pub deep: bool,
    /// Whether one is too large.
    pub large: bool,
    /// The tree nodes of all together, counted up to the limit and one more, if none has a fault.
    pub size: u64,
}

impl Findings {
    /// Makes the findings of no labels.
    fn none() -> Findings
        ensures { AreFound (λ test. false) 0 result }
    {
        Findings {
            undefined: false,
            deep: false,
            large: false,
            size: 0,
        }
    }

    /// Makes the findings of a label of this extent, or of one that reaches an undefined alias.
    fn of(extent: Option<Extent>) -> Findings
        ensures { (meaning : Option Meaning) → extent ≡ option_map extent_of meaning
            → AreFound (λ test. test meaning) (size_of_meaning meaning) result }
    {
        match extent {
            Some(extent) => Findings {
                undefined: false,
                deep: MOST_DEPTH < extent.depth,
                large: MOST_SIZE < extent.size,
                size: u64::from(extent.size),
            },
            None => Findings {
                undefined: true,
                deep: false,
                large: false,
                size: 0,
            },
        }
    }

    /// Joins the findings of these labels with those of others.
    fn with(self, other: Findings) -> Findings
        requires one { self.size ≤ most_total_size + 1 }
        requires other { other.size ≤ most_total_size + 1 }
        ensures { AreJoinedFindings self other result }
    {
        Findings {
            undefined: self.undefined || other.undefined,
            deep: self.deep || other.deep,
            large: self.large || other.large,
            size: (self.size + other.size).min(MOST_TOTAL_SIZE + 1),
        }
    }
}

/// Finds the faults of the labels of the body. Each label is measured once.
pub(crate) fn findings_of_states(
    alloc: Global,
    states: &[RawState],
    aliases: &Aliases,
) -> Result<Findings, Refusal>
    ensures ok { IfOk result (AreFound
        (λ test. labels_pass test aliases.now states.now)
        (sum_by (label_total aliases.now) states.now)) }
    ensures err { IfErr result IsMemory }
{
    let mut found = Findings::none();
    for state in states {
        let more = findings_of_state(alloc, state, aliases)?;
        found = found.with(more);
    }
    Ok(found)
}

/// Finds the faults of the labels of a state and of its edges.
fn findings_of_state(
    alloc: Global,
    state: &RawState,
    aliases: &Aliases,
) -> Result<Findings, Refusal>
    ensures ok { IfOk result (AreFound
        (λ test. is_labelled (λ label. test (expansion aliases.now label)) state.now)
        (label_total aliases.now state.now)) }
    ensures err { IfErr result IsMemory }
{
    let own = findings_of_label(alloc, state.label.as_ref(), aliases)?;
    let edges = findings_of_edges(alloc, &state.edges, aliases)?;
    Ok(own.with(edges))
}

/// Finds the faults of the labels of `edges`. Edges in compact form have none.
fn findings_of_edges(
    alloc: Global,
    edges: &RawEdges,
    aliases: &Aliases,
) -> Result<Findings, Refusal>
    ensures ok { IfOk result (AreFound (λ test. list_any
        (λ edge. passes (λ label. test (expansion aliases.now label)) edge.label) edges.now)
        (sum_by (λ edge. size_under aliases.now edge.label) edges.now)) }
    ensures err { IfErr result IsMemory }
{
    match edges.slice() {
        EdgeSlice::Short(_edges) => Ok(Findings::none()),
        EdgeSlice::Full(edges) => findings_of_full(alloc, edges, aliases),
    }
}

/// Finds the faults of the labels of edges that are kept as they are.
fn findings_of_full(
    alloc: Global,
    edges: &[RawEdge],
    aliases: &Aliases,
) -> Result<Findings, Refusal>
    ensures ok { IfOk result (AreFound (λ test. list_any
        (λ edge. passes (λ label. test (expansion aliases.now label)) edge.label) edges.now)
        (sum_by (λ edge. size_under aliases.now edge.label) edges.now)) }
    ensures err { IfErr result IsMemory }
{
    let mut found = Findings::none();
    for edge in edges {
        let more = findings_of_label(alloc, edge.label.as_ref(), aliases)?;
        found = found.with(more);
    }
    Ok(found)
}

/// Finds the faults of `label`, if there is one.
fn findings_of_label(
    alloc: Global,
    label: Option<&RawLabel>,
    aliases: &Aliases,
) -> Result<Findings, Refusal>
    ensures ok { IfOk result (AreFound
        (λ test. passes (λ label. test (expansion aliases.now label)) (option_copied label.entry))
        (size_under aliases.now (option_copied label.entry))) }
    ensures err { IfErr result IsMemory }
{
    match label {
        Some(label) => findings_of(alloc, label, aliases),
        None => Ok(Findings::none()),
    }
}

/// Finds the faults of `label`.
pub(crate) fn findings_of(
    alloc: Global,
    label: &RawLabel,
    aliases: &Aliases,
) -> Result<Findings, Refusal>
    ensures ok { IfOk result (AreFound
        (λ test. test (expansion aliases.now label.now))
        (size_under aliases.now (Some label.now))) }
    ensures err { IfErr result IsMemory }
{
    let extent = aliases.measure(alloc, label)?;
    Ok(Findings::of(extent))
}
