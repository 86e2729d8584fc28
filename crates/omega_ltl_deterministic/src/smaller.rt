//! A winner's automaton as a candidate with fewer states.
ghost use Rattle.std.specs.Prelude.{◌≤◌, IfErr, IfOk};
ghost use Rattle.omega_ltl_determinization.specs.Deterministic.{IsWellFormed};
ghost use Rattle.omega_ltl_determinization.specs.Limits.{most_names};
ghost use Rattle.omega_ltl_determinization.specs.Refusing.{IsLarge};
ghost use Rattle.omega_ltl_deterministic.specs.Candidate.{IsCandidate};

use crate::completion::{ACCEPTING, REJECTING, complete_automaton};
use crate::forming::automaton_over;
use crate::judging::are_same;
use crate::label_letters::LabelLetters;
use crate::one_answer::with_one_answer;
use omega_graph_search::number_of;
use omega_hoa_automaton::{Automaton, EdgeRef, State};
use omega_hoa_label::ROOM;
use omega_ltl_determinization::{
    DeterministicAutomaton, DeterministicBuilder, MOST_NAMES, all_letters, smaller_automaton,
};
use omega_text::{ByteString, Refusal, TaskFault};
use std::alloc::Global;

/// Returns a candidate that is made of the automaton of a winner, without the states that its start does not lead to,
/// and with equal states joined: those that lead at the same letters to equal states (Moore 1956).
///
/// A controller keeps one edge at each letter of the environment, where it has several; the system controls the
/// propositions with the numbers `controlled`. The candidate is to accept the words of the runs that are left, and no
/// others. A counter-strategy, if `rejects`, keeps its edges, and the candidate is to accept each word but those of its
/// runs. Nothing is proved of the words. In each state there is to be an edge for each letter: where a letter has none,
/// it leads to a sink. The form is that of [`crate::deterministic_candidate`].
///
/// Fails with [`TaskFault::TooLarge`] if `propositions` are not those of the winner or over [`MOST_NAMES`], if its
/// states are not defined in the order of their numbers, or if an edge has no label or leads to several states. Fails
/// so too if the candidate passes a limit. Takes 2^names bits for each edge.
pub fn smaller_candidate(
    alloc: Global,
    winner: &Automaton,
    propositions: &[ByteString],
    controlled: &[u32],
    rejects: bool,
) -> Result<Automaton, Refusal>
    ensures candidate { IfOk result (IsCandidate propositions.now) }
    ensures err { IfErr result IsLarge }
{
    let names = number_of(propositions.len());
    if names > MOST_NAMES || !are_same(winner.propositions(), propositions) {
        return Err(Refusal::Task(TaskFault::TooLarge));
    }
    let flat = flat_automaton(alloc, winner, names)?;
    let chosen = if rejects {
        flat
    } else {
        with_one_answer(alloc, flat, controlled)?
    };
    let small = smaller_automaton(alloc, chosen)?;
    let complete = complete_winner(alloc, small, rejects)?;
    automaton_over(alloc, &complete, propositions)
}

/// Returns an automaton whose edges all accept, or, if it `rejects`, all reject, with an edge for each letter in each
/// state: those that are added lead to a sink, which does the opposite. The edges of `automaton` accept.
fn complete_winner(
    alloc: Global,
    automaton: DeterministicAutomaton,
    rejects: bool,
) -> Result<DeterministicAutomaton, Refusal>
    ensures { IfErr result IsLarge }
{
    if !rejects {
        return complete_automaton(alloc, automaton, REJECTING);
    }
    let rejecting = with_rejecting_edges(alloc, automaton)?;
    complete_automaton(alloc, rejecting, ACCEPTING)
}

/// Returns the states and edges of an automaton as flat arrays, all edges of the colour [ACCEPTING]. Fails as
/// [smaller_candidate] does.
fn flat_automaton(
    alloc: Global,
    automaton: &Automaton,
    names: u32,
) -> Result<DeterministicAutomaton, Refusal>
    requires { names ≤ most_names }
    ensures automaton { IfOk result IsWellFormed }
    ensures err { IfErr result IsLarge }
{
    let all = all_letters(alloc, names)?;
    let mut letters = LabelLetters::new(alloc, all.as_slice());
    let mut builder = DeterministicBuilder::new(alloc, names);
    for state in automaton.defined() {
        if state.number != builder.state_count() {
            return Err(Refusal::Task(TaskFault::TooLarge));
        }
        add_state(state, &mut letters, &mut builder)?;
    }
    match automaton.starts() {
        [start] => builder.finish(names, only_number(start.as_slice())?),
        _ => Err(Refusal::Task(TaskFault::TooLarge)),
    }
}

/// Adds a state with its edges.
fn add_state(
    state: &State,
    letters: &mut LabelLetters<'_>,
    builder: &mut DeterministicBuilder,
) -> Result<(), Refusal>
    ensures { IfErr result IsLarge }
{
    for at in 0..state.edges.len() {
        add_edge(&state.edges.edge(at), letters, builder)?;
    }
    builder.end_state()
}

/// Adds an edge to the state that is being built.
fn add_edge(
    edge: &EdgeRef<'_>,
    letters: &mut LabelLetters<'_>,
    builder: &mut DeterministicBuilder,
) -> Result<(), Refusal>
    ensures { IfErr result IsLarge }
{
    let target = only_number(edge.targets())?;
    let Some(label) = edge.label() else {
        return Err(Refusal::Task(TaskFault::TooLarge));
    };
    let mut room = ROOM;
    let table = letters.table(label.nodes(&mut room))?;
    builder.add_edge(target, ACCEPTING, table)
}

/// Returns the number of a list of one. Fails with [`TaskFault::TooLarge`] if there are none or several.
fn only_number(numbers: &[u32]) -> Result<u32, Refusal>
    ensures { IfErr result IsLarge }
{
    match numbers {
        [number] => Ok(*number),
        _ => Err(Refusal::Task(TaskFault::TooLarge)),
    }
}

/// Returns an automaton with the same states and edges, all of the colour [REJECTING].
fn with_rejecting_edges(
    alloc: Global,
    automaton: DeterministicAutomaton,
) -> Result<DeterministicAutomaton, Refusal>
    ensures { IfErr result IsLarge }
{
    let names = automaton.names.min(MOST_NAMES);
    let mut builder = DeterministicBuilder::new(alloc, names);
    for state in 0..automaton.state_count() {
        for edge in automaton.places_of(state) {
            let letters = automaton.letters_of(edge);
            builder.add_edge(automaton.target(edge), REJECTING, letters)?;
        }
        builder.end_state()?;
    }
    builder.finish(names, automaton.start)
}
