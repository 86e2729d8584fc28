//! The edges of a state: its cubes, found by splitting.

ghost use Rattle.std.specs.Prelude.{◌≡◌, ◌<◌, ◌≤◌, ◌+◌, [], ◌∷◌, ◌++◌, IfOk, OnOk};
ghost use Rattle.std.specs.Prelude.{length, replicate, slice_set, sum_by};
ghost use Rattle.omega_hoa_automaton.specs.Limits.{most_propositions};
ghost use Rattle.omega_circuit_automaton.specs.declared.ternary.Ternary.TheVariants.{False, True, Unknown};
ghost use Rattle.omega_circuit_automaton.specs.private.Cuts.{AddsValuations, weight};
ghost use Rattle.omega_circuit_automaton.specs.private.Lanes.{IsLaneOf};
ghost use Rattle.omega_circuit_automaton.specs.private.Written.{AreEdgesOf, IsEdgeWith, IsSplitting};

use crate::budget::Budget;
use crate::ends::{Ends, Outcome, outcome_of};
use crate::evaluator::Evaluator;
use crate::labels::edge_label;
use crate::lanes::Lane;
use crate::ternary::Ternary;
use crate::valuations::Valuations;
use omega_circuit::Circuit;
use omega_hoa_syntax::{RawEdge, RawEdges};
use omega_text::{Marks, Numbers, Refusal, Seq};
use std::alloc::{AllocError, Global};

/// What is reached and made so far.
#[derive(Drop)]
pub(crate) struct Exploration {
    /// Evaluates rounds.
    pub(crate) evaluator: Evaluator,
    /// Counts edges and nodes of labels.
    pub(crate) budget: Budget,
    /// The valuations that were found.
    pub(crate) valuations: Valuations,
}

/// The edges of a state that were made, and the cubes that are left.
#[derive(Drop)]
struct Splitting {
    pending: Vec<Seq<Ternary>>,
    edges: RawEdges,
}

/// Returns the edges of the state in which the latches have these values. Valuations that they lead to and that are not
/// there are appended.
pub(crate) fn edges_of(
    alloc: Global,
    circuit: &Circuit,
    exploration: &mut Exploration,
    lane: Lane<'_>,
    latches: &[bool],
) -> Result<RawEdges, Refusal>
    requires few { length circuit.now.inputs + length circuit.now.outputs ≤ most_propositions }
    requires lane { IsLaneOf circuit.now latches.now lane.bit lane.known.now }
    requires latches { length latches.now ≡ length circuit.now.latches }
    ensures edges { IfOk result (AreEdgesOf circuit.now exploration.new.valuations.all.items latches.now) }
    ensures adds { OnOk result (AddsValuations (length circuit.now.latches)
        exploration.old.valuations.all.items exploration.new.valuations.all.items) }
{
    exploration.evaluator.begin(lane)?;
    let mut splitting = Splitting::new(alloc, circuit.inputs().len())?;
    while let Some(cube) = splitting.pending.pop() {
        splitting.step(alloc, circuit, exploration, lane, latches, cube)?;
    }
    Ok(splitting.edges)
}

impl Splitting {
    /// Returns no edges, and the cube of all letters.
    fn new(alloc: Global, inputs: usize) -> Result<Splitting, AllocError>
        ensures pending { IfOk result (λ none. none.pending.items ≡ replicate inputs Unknown ∷ []) }
        ensures edges { IfOk result (λ none. none.edges ≡ []) }
    {
        let whole = vec![in alloc; Ternary::Unknown; inputs]?;
        let pending = vec![in alloc; Seq::from_vec(whole)]?;
        Ok(Splitting {
            pending,
            edges: RawEdges::new(alloc),
        })
    }

    /// Makes the edge of a cube, or appends its halves.
    fn step(
        &mut self,
        alloc: Global,
        circuit: &Circuit,
        exploration: &mut Exploration,
        lane: Lane<'_>,
        latches: &[bool],
        cube: Seq<Ternary>,
    ) -> Result<(), Refusal>
        requires few { length circuit.now.inputs + length circuit.now.outputs ≤ most_propositions }
        requires lane { IsLaneOf circuit.now latches.now lane.bit lane.known.now }
        requires latches { length latches.now ≡ length circuit.now.latches }
        requires splitting { IsSplitting circuit.now exploration.old.valuations.all.items latches.now
            (self.old.pending.items ++ cube ∷ []) self.old.edges }
        ensures splitting { OnOk result (IsSplitting circuit.now exploration.new.valuations.all.items
            latches.now self.new.pending.items self.new.edges) }
        ensures lighter { OnOk result
            (sum_by weight self.new.pending.items < sum_by weight self.old.pending.items + weight cube) }
        ensures adds { OnOk result (AddsValuations (length circuit.now.latches)
            exploration.old.valuations.all.items exploration.new.valuations.all.items) }
    {
        let evaluator = &mut exploration.evaluator;
        match outcome_of(alloc, circuit, evaluator, lane, latches, cube.as_slice())? {
            Outcome::Split(input) => push_halves(alloc, cube, input, &mut self.pending)?,
            Outcome::Ends(ends) => {
                let edge = edge_of(alloc, exploration, cube.as_slice(), &ends)?;
                self.edges.push(alloc, edge)?;
            }
        }
        Ok(())
    }
}

/// Appends both halves of a cube by an input that is unknown, at last the one in which the input is false.
fn push_halves(
    alloc: Global,
    cube: Seq<Ternary>,
    input: usize,
    pending: &mut Vec<Seq<Ternary>>,
) -> Result<(), AllocError>
    requires { input < length cube }
    ensures { OnOk result (pending.new.items ≡ pending.old.items
        ++ slice_set cube input True ∷ slice_set cube input False ∷ []) }
{
    let mut upper = Vec::from_slice(alloc, cube.as_slice())?;
    upper[input] = Ternary::True;
    let mut lower = cube.into_vec();
    lower[input] = Ternary::False;
    pending.push(Seq::from_vec(upper))?;
    pending.push(Seq::from_vec(lower))?;
    Ok(())
}

/// Returns the edge of a cube whose rounds end so. A valuation that it leads to and that is not there is appended.
fn edge_of(
    alloc: Global,
    exploration: &mut Exploration,
    cube: &[Ternary],
    ends: &Ends,
) -> Result<RawEdge, Refusal>
    requires { length cube.now + length ends.now.outputs.items ≤ most_propositions }
    ensures edge { IfOk result (IsEdgeWith cube.now ends.now.outputs.items ends.now.nexts.items
        exploration.new.valuations.all.items) }
    ensures adds { OnOk result (AddsValuations (length ends.now.nexts.items)
        exploration.old.valuations.all.items exploration.new.valuations.all.items) }
{
    let label = edge_label(alloc, cube, ends.outputs.as_slice())?;
    exploration.budget.take(&label)?;
    let target = exploration
        .valuations
        .number_of(alloc, ends.nexts.as_slice())?;
    Ok(RawEdge {
        label: Some(label),
        targets: Numbers::one(target),
        marks: Marks::absent(),
    })
}
