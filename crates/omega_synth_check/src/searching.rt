//! The search for a letter of the environment that a state that is reached does not answer.

ghost use Rattle.std.specs.Prelude.{◌≡◌, ◌<◌, IfErr, IfOk, IsOkUnless, OnOk, false, length};
ghost use Rattle.omega_hoa_automaton.specs.Branching.{has_universal_branching};
ghost use Rattle.omega_synth_check.specs.Refusing.{IsLetterRefusal};
ghost use Rattle.omega_synth_check.specs.private.Meeting.{Extends, HasNext, HasStarts, IsMetOf, state_at};
ghost use Rattle.omega_synth_check.specs.Lacks.{IsLackOf};
ghost use Rattle.omega_synth_check.specs.private.Searching.{IsSearch, IsSearched, IsVisited};

use crate::entering::enter_all;
use crate::judgement::Lack;
use crate::leaving::Leaving;
use crate::letters::unanswered_letter;
use crate::meeting::MetStates;
use crate::search::ControllerSearch;
use omega_hoa_automaton::{Automaton, Refusal};
use omega_hoa_edges::MOST_STATES;
use omega_text::{Numbers, TaskFault};
use std::alloc::Global;

/// The place of a state among those that were met, and a letter of the environment that the state does not answer.
#[derive(Drop)]
pub(crate) struct Lacking {
    pub(crate) place: usize,
    /// The propositions that hold.
    pub(crate) letter: Numbers,
}

/// Returns a state of `controller` that is reached and does not answer a letter of the environment, and a stem to it;
/// none if each such state answers each letter. The system controls the propositions with the numbers `controlled`. The
/// states are asked as a search breadth first meets them.
///
/// Fails with [TaskFault::TooLarge] if over `MOST_STATES` states are met, or if a label is too deep or too large, and
/// with [TaskFault::TooManyPropositions] if a label is left undecided, or if the labels of a state mention over
/// `MOST_MENTIONED` propositions of the environment.
pub fn lack_of(
    alloc: Global,
    controller: &Automaton,
    controlled: &[u32],
) -> Result<Option<Lack>, Refusal>
    requires { has_universal_branching controller.now ≡ false }
    ensures lack { IfOk result (IsLackOf controller.now controlled.now) }
    ensures refused { IfErr result (IsLetterRefusal controller.now controlled.now) }
{
    controller.keeps_limits();
    let leaving = Leaving::of(alloc, controller)?;
    let search = ControllerSearch {
        automaton: controller,
        leaving: &leaving,
        controlled,
    };
    let mut met = MetStates::starts(alloc, controller)?;
    let lacking = first_lacking(alloc, &search, &mut met)?;
    let lack = with_stem(alloc, controller, controlled, &met, lacking)?;
    Ok(lack)
}

/// Returns the first state at which the search meets a letter that is not answered, by its place; none if each state
/// that is reached answers each letter. Adds the states that are met. Fails as `lack_of` does.
fn first_lacking(
    alloc: Global,
    search: &ControllerSearch<'_>,
    met: &mut MetStates,
) -> Result<Option<Lacking>, Refusal>
    requires search { IsSearch search.now }
    requires met { IsMetOf search.now.automaton.now met.old }
    requires starts { HasStarts search.now.automaton.now met.old.states.keys }
    ensures met { OnOk result (IsMetOf search.now.automaton.now met.new) }
    ensures lacking { IfOk result
        (IsSearched search.now.automaton.now search.now.controlled.now met.new.states.keys) }
    ensures refused { IfErr result
        (IsLetterRefusal search.now.automaton.now search.now.controlled.now) }
{
    let mut at = 0;
    while at < met.len() {
        if MOST_STATES < met.len() {
            return Err(Refusal::Task(TaskFault::TooLarge));
        }
        match visit(alloc, search, met, at)? {
            Some(letter) => return Ok(Some(Lacking { place: at, letter })),
            None => {}
        }
        at += 1;
    }
    Ok(None)
}

/// Adds the states that the edges of the state at the place `at` enter. Returns a letter that this state does not
/// answer, if there is one. Fails as `enter_all` and `unanswered_letter` do.
fn visit(
    alloc: Global,
    search: &ControllerSearch<'_>,
    met: &mut MetStates,
    at: usize,
) -> Result<Option<Numbers>, Refusal>
    requires search { IsSearch search.now }
    requires met { IsMetOf search.now.automaton.now met.old }
    requires at { at < length met.old.states.keys }
    ensures met { OnOk result (IsMetOf search.now.automaton.now met.new) }
    ensures extends { OnOk result (Extends met.old.states.keys met.new.states.keys) }
    ensures next { OnOk result
        (HasNext search.now.automaton.now (state_at met.old.states.keys at) met.new.states.keys) }
    ensures letter { IfOk result (IsVisited search.now.automaton.now search.now.controlled.now
        (state_at met.old.states.keys at)) }
    ensures refused { IfErr result
        (IsLetterRefusal search.now.automaton.now search.now.controlled.now) }
{
    let state = met.state_at(at);
    let numbers = search.leaving.of_state(search.automaton, state);
    enter_all(alloc, search, met, at, numbers)?;
    let places = search.leaving.places.as_slice();
    let letter = unanswered_letter(alloc, search.automaton, places, numbers, search.controlled)?;
    Ok(letter)
}

/// Returns what is lacking, with its state and a stem to it.
fn with_stem(
    alloc: Global,
    automaton: &Automaton,
    _controlled: &[u32],
    met: &MetStates,
    lacking: Option<Lacking>,
) -> Result<Option<Lack>, Refusal>
    requires met { IsMetOf automaton.now met.now }
    requires lacking { IsSearched automaton.now _controlled.now met.now.states.keys lacking }
    ensures lack { IfOk result (IsLackOf automaton.now _controlled.now) }
    ensures memory { IsOkUnless result Refusal.Memory }
{
    match lacking {
        None => Ok(None),
        Some(lacking) => {
            let stem = met.stem(alloc, automaton, lacking.place)?;
            Ok(Some(Lack {
                state: met.state_at(lacking.place),
                letter: lacking.letter,
                stem,
            }))
        }
    }
}
