ghost use Rattle.std.specs.Prelude.{◌≡◌, ◌≤◌, length, IfErr, IfOk};
ghost use Rattle.omega_ltl_determinization.specs.Deterministic.{IsWellFormed};
ghost use Rattle.omega_ltl_determinization.specs.Refusing.{IsLarge};

use crate::bracket_step::{BracketStep, Nodes};
use crate::components::{Components, components_of};
use crate::deterministic::DeterministicAutomaton;
use crate::deterministic_builder::DeterministicBuilder;
use crate::essential_steps::essential_steps;
use crate::letter_classes::classes_of;
use crate::letter_sets::LetterSets;
use crate::limits::{MOST_LEAF_NAMES, MOST_STATES};
use crate::nondeterministic::NondeterministicAutomaton;
use crate::simulation::reduced_by_simulation;
use crate::steps::Steps;
use indexmap::IndexSet;
use omega_graph_search::number_of;
use omega_text::{Refusal, TaskFault};
use std::alloc::{AllocError, Global};

/// Returns a deterministic automaton that is to accept the words that `automaton` accepts: Safra trees (Safra 1988), as
/// nested brackets in the order of their age (Redziejowski 2012), with colours. Nothing is proved of its words, which
/// its user judges. Before, `automaton` is reduced by direct simulation, if it is not too large: an automaton that is
/// deterministic then stays as it is, with one level for each set.
///
/// Fails with [`TaskFault::TooLarge`] if there are over [`MOST_LEAF_NAMES`] names, if the automaton would have over
/// `most` states or over [`MOST_STATES`], or if its letters would take over [`crate::MOST_WORDS`] words. The number of
/// states may be exponential in that of `automaton`. A second run gives the same automaton.
pub fn deterministic_automaton(
    alloc: Global,
    automaton: &NondeterministicAutomaton,
    most: u32,
) -> Result<DeterministicAutomaton, Refusal>
    ensures automaton { IfOk result IsWellFormed }
    ensures few { IfOk result (λ found. length found.ends ≤ most) }
    ensures names { IfOk result (λ found. found.names ≡ automaton.now.names) }
    ensures err { IfErr result IsLarge }
{
    if automaton.names() > MOST_LEAF_NAMES {
        return Err(Refusal::Task(TaskFault::TooLarge));
    }
    let classes = classes_of(alloc, automaton)?;
    let mut starts = Vec::from_slice(alloc, automaton.starts())?;
    let steps = Steps::of(alloc, automaton, &classes)?;
    let essential = essential_steps(alloc, &steps, automaton.sets())?;
    let steps = reduced_by_simulation(alloc, essential.steps, &mut starts)?;
    let components = components_by_steps(alloc, &steps)?;
    let nodes = Nodes {
        steps: &steps,
        components: &components,
        sets: essential.sets,
    };
    let mut builder = DeterministicBuilder::new(alloc, automaton.names());
    explore(
        alloc,
        &nodes,
        starts.as_slice(),
        &classes,
        most,
        &mut builder,
    )?;
    let found = builder.finish(automaton.names(), 0)?;
    if found.ends.len() > most as usize {
        return Err(Refusal::Task(TaskFault::TooLarge));
    }
    Ok(found)
}

/// Returns the components of the states of an automaton.
fn components_by_steps(alloc: Global, steps: &Steps) -> Result<Components, AllocError> {
    let (ends, targets) = steps.graph(alloc)?;
    components_of(alloc, ends.as_slice(), targets.as_slice())
}

/// Builds the deterministic states that are reached from the one in which the starts stand in one bracket. Fails with
/// [`TaskFault::TooLarge`] as [`deterministic_automaton`] does.
fn explore(
    alloc: Global,
    nodes: &Nodes<'_>,
    starts: &[u32],
    classes: &LetterSets,
    most: u32,
    builder: &mut DeterministicBuilder,
) -> Result<(), Refusal>
    ensures { IfErr result IsLarge }
{
    let mut step = BracketStep::new(alloc, nodes.count())?;
    let mut found = IndexSet::new(alloc);
    step.begin(nodes, starts)?;
    number_in(alloc, step.state(), &mut found)?;
    // One round more than there may be states, in which the builder refuses one.
    for number in 0..=MOST_STATES {
        if found.len() > most as usize {
            return Err(Refusal::Task(TaskFault::TooLarge));
        }
        match found.get_index(number) {
            Some(state) => step.leave(state.as_slice())?,
            None => break,
        }
        add_edges(alloc, nodes, classes, &mut step, &mut found, builder)?;
        builder.end_state()?;
    }
    Ok(())
}

/// Adds the edges of the state that `step` leaves. States that they lead to and that are not there are added to
/// `found`.
fn add_edges(
    alloc: Global,
    nodes: &Nodes<'_>,
    classes: &LetterSets,
    step: &mut BracketStep,
    found: &mut IndexSet<Vec<u32>>,
    builder: &mut DeterministicBuilder,
) -> Result<(), Refusal>
    ensures { IfErr result IsLarge }
{
    for class in 0..classes.len() {
        let colour = step.take(nodes, class)?;
        if !step.is_empty() {
            let target = number_in(alloc, step.state(), found)?;
            builder.add_edge(target, colour, classes.at(class))?;
        }
    }
    Ok(())
}

/// Returns the number of a state, which is added if it is not there.
fn number_in(
    alloc: Global,
    state: &[u32],
    found: &mut IndexSet<Vec<u32>>,
) -> Result<u32, AllocError> {
    if let Some(number) = found.get_index_of(state) {
        return Ok(number_of(number));
    }
    let key = Vec::from_slice(alloc, state)?;
    let (number, _new) = found.insert_full(key)?;
    Ok(number_of(number))
}
