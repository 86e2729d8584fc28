//! A deterministic automaton with an edge for each letter in each state.
ghost use Rattle.std.specs.Prelude.{IfErr};
ghost use Rattle.omega_ltl_determinization.specs.Refusing.{IsLarge};

use omega_ltl_determinization::{
    DeterministicAutomaton, DeterministicBuilder, MOST_NAMES, all_letters,
};
use omega_text::Refusal;
use std::alloc::{AllocError, Global};

/// A colour of edges that accepts the words that see no lesser one again and again: it is even.
pub(crate) const ACCEPTING: u32 = 0;

/// A colour of edges that rejects the words that see no lesser one again and again: it is odd.
pub(crate) const REJECTING: u32 = 1;

/// Returns an automaton in which each state has an edge for each letter. If some letter has no edge, it has one state
/// more, a sink that runs do not leave. The edges to it have the colour `colour`, [ACCEPTING] or [REJECTING]; if they
/// reject, the same words are to be accepted.
///
/// Fails with [`TaskFault::TooLarge`] if the sink is a state or a table of letters too many. Linear in the edges and
/// their letters.
pub(crate) fn complete_automaton(
    alloc: Global,
    automaton: DeterministicAutomaton,
    colour: u32,
) -> Result<DeterministicAutomaton, Refusal>
    ensures { IfErr result IsLarge }
{
    let names = automaton.names.min(MOST_NAMES);
    let all = all_letters(alloc, names)?;
    let mut builder = DeterministicBuilder::new(alloc, names);
    let lacks = add_complete_states(alloc, &automaton, colour, all.as_slice(), &mut builder)?;
    if !lacks {
        return Ok(automaton);
    }
    builder.add_edge(automaton.state_count(), colour, all.as_slice())?;
    builder.end_state()?;
    builder.finish(names, automaton.start)
}

/// Adds the states of `automaton`, and where letters of `all` have no edge one of a colour that leads to the state
/// after the last. Returns whether some letter had none.
fn add_complete_states(
    alloc: Global,
    automaton: &DeterministicAutomaton,
    colour: u32,
    all: &[u64],
    builder: &mut DeterministicBuilder,
) -> Result<bool, Refusal>
    ensures { IfErr result IsLarge }
{
    let sink = automaton.state_count();
    let mut lacks = false;
    for state in 0..sink {
        for edge in automaton.places_of(state) {
            let letters = automaton.letters_of(edge);
            builder.add_edge(automaton.target(edge), automaton.colour(edge), letters)?;
        }
        let left = letters_without_edge(alloc, automaton, state, all)?;
        if left.iter().any(|word| *word != 0) {
            builder.add_edge(sink, colour, left.as_slice())?;
            lacks = true;
        }
        builder.end_state()?;
    }
    Ok(lacks)
}

/// Returns the table of those letters of `all` at which no edge of a state can be taken.
fn letters_without_edge(
    alloc: Global,
    automaton: &DeterministicAutomaton,
    state: u32,
    all: &[u64],
) -> Result<Vec<u64>, AllocError> {
    let mut left = Vec::from_slice(alloc, all)?;
    for edge in automaton.places_of(state) {
        for (word, taken) in left.iter_mut().zip(automaton.letters_of(edge)) {
            *word &= !*taken;
        }
    }
    Ok(left)
}
