//! The states that usable edges enter.

ghost use Rattle.std.specs.Prelude.{◌≡◌, ◌<◌, ℕ, Contains, IfErr, IfNone, IfOk, IfSome, OnOk, false, length};
ghost use Rattle.omega_hoa_automaton.specs.Branching.{has_universal_branching};
ghost use Rattle.omega_lang_runs.specs.Judging.{GivesUpOn};
ghost use Rattle.omega_lang_runs.specs.Lasso.{IsStep};
ghost use Rattle.omega_lang_runs.specs.Places.{EdgeStandsAt};
ghost use Rattle.omega_synth_game.specs.Making.{AllLeave, IsLeaving};
ghost use Rattle.omega_synth_check.specs.private.Meeting.{Extends, HasEntered, IsMetOf, state_at};
ghost use Rattle.omega_synth_check.specs.Refusing.{IsHardEdge};
ghost use Rattle.omega_synth_check.specs.private.Searching.{HaveHardEdge, IsSearch};

use crate::meeting::{MetStates, StateEntry};
use crate::search::ControllerSearch;
use omega_hoa_automaton::{Automaton, Refusal};
use omega_lang_runs::{EdgePlace, JudgedState};
use std::alloc::Global;

/// Adds the states that the usable ones of the edges with these `numbers` enter. The edges leave the state at the place
/// `at`. Fails with [TaskFault::TooManyPropositions] if a label is given up.
pub(crate) fn enter_all(
    alloc: Global,
    search: &ControllerSearch<'_>,
    met: &mut MetStates,
    at: usize,
    numbers: &[u32],
) -> Result<(), Refusal>
    requires search { IsSearch search.now }
    requires met { IsMetOf search.now.automaton.now met.old }
    requires at { at < length met.old.states.keys }
    requires leave { AllLeave search.now.automaton.now (state_at met.old.states.keys at) numbers.now }
    ensures met { OnOk result (IsMetOf search.now.automaton.now met.new) }
    ensures extends { OnOk result (Extends met.old.states.keys met.new.states.keys) }
    ensures entered { OnOk result (HasEntered search.now.automaton.now
        (state_at met.old.states.keys at) numbers.now met.new.states.keys) }
    ensures refused { IfErr result (GivesUpOn (HaveHardEdge search.now.automaton.now numbers.now)) }
{
    for number in numbers {
        enter(alloc, search, met, at, *number)?;
    }
    Ok(())
}

/// Adds the state that the edge with this `number` enters, if it is usable. Fails as `enter_all` does.
fn enter(
    alloc: Global,
    search: &ControllerSearch<'_>,
    met: &mut MetStates,
    at: usize,
    number: u32,
) -> Result<(), Refusal>
    requires search { IsSearch search.now }
    requires met { IsMetOf search.now.automaton.now met.old }
    requires at { at < length met.old.states.keys }
    requires leaves { IsLeaving search.now.automaton.now (state_at met.old.states.keys at) number }
    ensures met { OnOk result (IsMetOf search.now.automaton.now met.new) }
    ensures extends { OnOk result (Extends met.old.states.keys met.new.states.keys) }
    ensures entered { OnOk result
        ((next : ℕ) → IsStep search.now.automaton.now (state_at met.old.states.keys at) number next
        → Contains met.new.states.keys next) }
    ensures refused { IfErr result (GivesUpOn (IsHardEdge search.now.automaton.now number)) }
{
    match target(alloc, search, number)? {
        None => Ok(()),
        Some(state) => {
            let entry = StateEntry {
                from: at,
                edge: number,
            };
            met.add(search.automaton, state, Some(entry))?;
            Ok(())
        }
    }
}

/// Returns the state that the edge with this `number` enters; none if the edge is not usable. Fails as `enter_all`
/// does.
fn target(alloc: Global, search: &ControllerSearch<'_>, number: u32) -> Result<Option<u32>, Refusal>
    requires search { IsSearch search.now }
    requires number { number < length search.now.leaving.now.places.items }
    ensures step { IfOk result
        (λ found. IfSome found (λ target. (state : ℕ) → IsLeaving search.now.automaton.now state number
        → IsStep search.now.automaton.now state number target)) }
    ensures none { IfOk result (λ found. IfNone found ((state next : ℕ) →
        ¬ IsStep search.now.automaton.now state number next)) }
    ensures refused { IfErr result (GivesUpOn (IsHardEdge search.now.automaton.now number)) }
{
    let place = search.leaving.places[number as usize];
    target_at(alloc, search.automaton, place, number)
}

/// Returns the state that the edge with this `number`, which is at `place`, enters; none if the edge is not usable.
/// Fails as `enter_all` does.
fn target_at(
    alloc: Global,
    automaton: &Automaton,
    place: EdgePlace,
    _number: u32,
) -> Result<Option<u32>, Refusal>
    requires plain { has_universal_branching automaton.now ≡ false }
    requires stands { EdgeStandsAt automaton.now _number place }
    ensures step { IfOk result (λ found. IfSome found (λ target. (state : ℕ) →
        IsLeaving automaton.now state _number → IsStep automaton.now state _number target)) }
    ensures none { IfOk result
        (λ found. IfNone found ((state next : ℕ) → ¬ IsStep automaton.now state _number next)) }
    ensures refused { IfErr result (GivesUpOn (IsHardEdge automaton.now _number)) }
{
    automaton.keeps_limits();
    let state = &automaton.defined()[place.state];
    let edge = state.edges.edge(place.index);
    let judged_state = JudgedState::of(alloc, state)?;
    let usable = judged_state.is_usable(alloc, &edge)?;
    if usable {
        Ok(Some(edge.targets()[0]))
    } else {
        Ok(None)
    }
}
