//! States of an automaton in which the environment has no letter that no way out answers.

ghost use Rattle.std.specs.Prelude.{◌≡◌, ◌<◌, ℕ, Bool, All, Contains, filter, IfErr, IfNone, IfOk, IfSome};
ghost use Rattle.std.specs.Prelude.{IsOkUnless, OnOk, false, length};
ghost use Rattle.omega_hoa_automaton.specs.Branching.{has_universal_branching};
ghost use Rattle.omega_lang_runs.specs.Places.{ArePlaces};
ghost use Rattle.omega_synth_game.specs.Making.{IsQuestionsOfRefusal};
ghost use Rattle.omega_synth_check.specs.private.Meeting.{Extends, HasNext, HasStarts, IsMetOf, state_at};
ghost use Rattle.omega_synth_check.specs.private.Searching.{IsSearch, SomeAnswers};
ghost use Rattle.omega_synth_check.specs.private.Blocked.{IsBlockedAmong, IsSpared, IsVisitedFor};
ghost use Rattle.omega_synth_check.specs.WaysOut.{IsStateFound, IsWayRefusal, flag};

use crate::entering::enter_all;
use crate::leaving::Leaving;
use crate::letters::unanswered_letter;
use crate::meeting::MetStates;
use crate::search::ControllerSearch;
use omega_hoa_automaton::{Automaton, Refusal};
use omega_hoa_edges::MOST_STATES;
use omega_lang_runs::EdgePlace;
use omega_text::{Seq, TaskFault};
use std::alloc::Global;

/// A state in which each letter of the environment has an answer by a way out.
#[derive(Drop)]
pub struct StateWithoutLetter {
    /// The number of the state.
    pub state: u32,
    /// The number of a way out of the state.
    pub number: u32,
    /// The numbers of edges that lead to the state from a start, in order.
    pub stem: Seq<u32>,
}

/// The place of such a state among those that were met, and the number of a way out of it.
#[derive(Clone, Copy)]
pub(crate) struct Blocked {
    pub(crate) place: usize,
    pub(crate) number: u32,
}

/// Returns a state of `automaton` that is reached and in which the environment has no letter, so that some way out of
/// the state answers each letter; none if it has one in each. The ways out are edges of `other`, which has the states
/// of `automaton`, if not more: `ways_out` says of each, by its number, whether it is one. The system controls the
/// propositions of `other` with the numbers `controlled`. The states are asked as a search breadth first meets them.
///
/// Fails with [TaskFault::TooLarge] if over `MOST_STATES` states are met, or if a label is too deep or too large, and
/// with [TaskFault::TooManyPropositions] if a label is left undecided, or if the labels of the ways out of a state
/// mention over `MOST_MENTIONED` propositions of the environment.
pub fn state_without_letter(
    alloc: Global,
    automaton: &Automaton,
    other: &Automaton,
    controlled: &[u32],
    ways_out: &[bool],
) -> Result<Option<StateWithoutLetter>, Refusal>
    requires plain { has_universal_branching automaton.now ≡ false }
    requires other { has_universal_branching other.now ≡ false }
    ensures found { IfOk result (IsStateFound automaton.now other.now controlled.now (flag ways_out.now)) }
    ensures refused { IfErr result (IsWayRefusal automaton.now other.now controlled.now) }
{
    automaton.keeps_limits();
    other.keeps_limits();
    let leaving = Leaving::of(alloc, automaton)?;
    let search = ControllerSearch {
        automaton,
        leaving: &leaving,
        controlled,
    };
    let other_leaving = Leaving::of(alloc, other)?;
    let asked = ControllerSearch {
        automaton: other,
        leaving: &other_leaving,
        controlled,
    };
    let mut met = MetStates::starts(alloc, automaton)?;
    let blocked = first_blocked(alloc, &search, &asked, ways_out, &mut met)?;
    let found = with_stem(alloc, automaton, other, controlled, ways_out, &met, blocked)?;
    Ok(found)
}

/// Returns the first state in which the search finds that the environment has no letter; none if it has one in each
/// state that is reached. Adds the states that are met. The ways out are edges of the automaton of `asked`.
fn first_blocked(
    alloc: Global,
    search: &ControllerSearch<'_>,
    asked: &ControllerSearch<'_>,
    ways_out: &[bool],
    met: &mut MetStates,
) -> Result<Option<Blocked>, Refusal>
    requires search { IsSearch search.now }
    requires asked { IsSearch asked.now }
    requires met { IsMetOf search.now.automaton.now met.old }
    requires starts { HasStarts search.now.automaton.now met.old.states.keys }
    ensures met { OnOk result (IsMetOf search.now.automaton.now met.new) }
    ensures blocked { IfOk result (IsBlockedAmong search.now.automaton.now asked.now.automaton.now
        asked.now.controlled.now (flag ways_out.now) met.new.states.keys) }
    ensures refused { IfErr result (IsWayRefusal search.now.automaton.now asked.now.automaton.now
        asked.now.controlled.now) }
{
    let mut at = 0;
    while at < met.len() {
        if MOST_STATES < met.len() {
            return Err(Refusal::Task(TaskFault::TooLarge));
        }
        match way_out_at(alloc, search, asked, ways_out, met, at)? {
            Some(number) => return Ok(Some(Blocked { place: at, number })),
            None => {}
        }
        at += 1;
    }
    Ok(None)
}

/// Adds the states that the edges of the state at the place `at` enter. Returns a way out of this state if each letter
/// has an answer by one of them.
fn way_out_at(
    alloc: Global,
    search: &ControllerSearch<'_>,
    asked: &ControllerSearch<'_>,
    ways_out: &[bool],
    met: &mut MetStates,
    at: usize,
) -> Result<Option<u32>, Refusal>
    requires search { IsSearch search.now }
    requires asked { IsSearch asked.now }
    requires met { IsMetOf search.now.automaton.now met.old }
    requires at { at < length met.old.states.keys }
    ensures met { OnOk result (IsMetOf search.now.automaton.now met.new) }
    ensures extends { OnOk result (Extends met.old.states.keys met.new.states.keys) }
    ensures next { OnOk result
        (HasNext search.now.automaton.now (state_at met.old.states.keys at) met.new.states.keys) }
    ensures way { IfOk result (IsVisitedFor asked.now.automaton.now asked.now.controlled.now
        (flag ways_out.now) (state_at met.old.states.keys at)) }
    ensures refused { IfErr result (IsWayRefusal search.now.automaton.now asked.now.automaton.now
        asked.now.controlled.now) }
{
    let state = met.state_at(at);
    let numbers = search.leaving.of_state(search.automaton, state);
    enter_all(alloc, search, met, at, numbers)?;
    let others = asked.leaving.of_state(asked.automaton, state);
    let out = flagged(alloc, others, ways_out)?;
    let places = asked.leaving.places.as_slice();
    let number = blocking_edge(
        alloc,
        asked.automaton,
        places,
        out.as_slice(),
        asked.controlled,
    )?;
    Ok(number)
}

/// Returns those of `numbers` whose flags are set.
fn flagged(alloc: Global, numbers: &[u32], flags: &[bool]) -> Result<Vec<u32>, Refusal>
    ensures numbers { IfOk result (λ found. found.items ≡ filter (flag flags.now) numbers.now) }
    ensures memory { IsOkUnless result Refusal.Memory }
{
    let mut found = Vec::new(alloc);
    for number in numbers {
        if is_flagged(flags, *number) {
            found.push(*number)?;
        }
    }
    Ok(found)
}

/// Whether the flag of `number` is set.
fn is_flagged(flags: &[bool], number: u32) -> bool
    ensures { result ≡ flag flags.now number }
{
    let at = number as usize;
    at < flags.len() && flags[at]
}

/// Returns the first of the edges with the numbers `out` if each letter of the environment has an answer by one of
/// them; none if some letter has not. Fails as `questions_of` does.
fn blocking_edge(
    alloc: Global,
    automaton: &Automaton,
    places: &[EdgePlace],
    out: &[u32],
    controlled: &[u32],
) -> Result<Option<u32>, Refusal>
    requires places { ArePlaces automaton.now places.now }
    requires out { All (λ number. number < length places.now) out.now }
    ensures spared { IfOk result
        (λ found. IfNone found (IsSpared automaton.now controlled.now out.now)) }
    ensures first { IfOk result (λ found. IfSome found (Contains out.now)) }
    ensures each { IfOk result (λ found. IfSome found (λ number. (given : ℕ → Bool)
        → SomeAnswers automaton.now controlled.now out.now given)) }
    ensures refused { IfErr result (IsQuestionsOfRefusal automaton.now controlled.now out.now) }
{
    let [first, ..] = out else {
        return Ok(None);
    };
    match unanswered_letter(alloc, automaton, places, out, controlled)? {
        Some(_) => Ok(None),
        None => Ok(Some(*first)),
    }
}

/// Returns the state that was found, with a stem to it.
fn with_stem(
    alloc: Global,
    automaton: &Automaton,
    _other: &Automaton,
    _controlled: &[u32],
    _ways_out: &[bool],
    met: &MetStates,
    blocked: Option<Blocked>,
) -> Result<Option<StateWithoutLetter>, Refusal>
    requires met { IsMetOf automaton.now met.now }
    requires blocked { IsBlockedAmong automaton.now _other.now _controlled.now (flag _ways_out.now)
        met.now.states.keys blocked }
    ensures found { IfOk result
        (IsStateFound automaton.now _other.now _controlled.now (flag _ways_out.now)) }
    ensures memory { IsOkUnless result Refusal.Memory }
{
    match blocked {
        None => Ok(None),
        Some(blocked) => {
            let stem = met.stem(alloc, automaton, blocked.place)?;
            Ok(Some(StateWithoutLetter {
                state: met.state_at(blocked.place),
                number: blocked.number,
                stem,
            }))
        }
    }
}
