//! The questions of all states.

ghost use Rattle.std.specs.Prelude.{◌≡◌, ◌+◌, ◌<◌, ◌≤◌, ◌++◌, ◌∷◌, [], ℕ};
ghost use Rattle.std.specs.Prelude.{IfErr, IfOk, IsOkUnless, OnOk, length};
ghost use Rattle.omega_game_values.specs.Limits.{most_nodes};
ghost use Rattle.omega_lang_runs.specs.Places.{ArePlaces};
ghost use Rattle.omega_synth_game.specs.Making.{AllLeave, AreQuestionsOf};
ghost use Rattle.omega_synth_game.specs.private.Making.{AreAskedInTurn};
ghost use Rattle.omega_synth_game.specs.Making.{HaveFewInputs, IsQuestionsOfRefusal, IsRoundsOfRefusal};
ghost use Rattle.omega_synth_game.specs.private.Making.{AreStatesAsked};
ghost use Rattle.omega_synth_game.specs.private.Making.{StatesLeave};

use crate::questions::{Questions, questions_of};
use omega_game_values::MOST_NODES;
use omega_hoa_automaton::{Automaton, Refusal};
use omega_lang_runs::EdgePlace;
use omega_synth_rounds::QuestionRange;
use omega_text::{GameFault, Numbers};
use std::alloc::Global;

/// The questions of states, and which of them are those of each state.
#[derive(Drop)]
pub(crate) struct StatesAsked {
    pub(crate) ranges: Vec<QuestionRange>,
    pub(crate) letters: Vec<Numbers>,
    pub(crate) answers: Vec<Numbers>,
}

/// Returns the questions of all states, which the edges with the numbers in `leaving` leave. Fails with
/// [GameFault::TooManyNodes] if there are over `MOST_NODES`, and as `questions_of` does.
pub(crate) fn states_asked(
    alloc: Global,
    automaton: &Automaton,
    places: &[EdgePlace],
    leaving: &[Numbers],
    controlled: &[u32],
) -> Result<StatesAsked, Refusal>
    requires places { ArePlaces automaton.now places.now }
    requires leaving { StatesLeave automaton.now leaving.now }
    ensures asked { IfOk result (λ asked. AreStatesAsked automaton.now controlled.now leaving.now
        (length leaving.now) asked.ranges.items asked.letters.items asked.answers.items) }
    ensures in_turn { IfOk result (λ asked. AreAskedInTurn automaton.now controlled.now
        leaving.now (length leaving.now) asked.ranges.items asked.answers.items) }
    ensures refused { IfErr result (IsRoundsOfRefusal automaton.now controlled.now) }
{
    let mut asked = StatesAsked {
        ranges: Vec::new(alloc),
        letters: Vec::new(alloc),
        answers: Vec::new(alloc),
    };
    for numbers in leaving {
        let questions = asked_in(alloc, automaton, places, numbers.as_slice(), controlled)?;
        if asked.answers.len() + questions.answers.len() > MOST_NODES {
            return Err(Refusal::Game(GameFault::TooManyNodes));
        }
        add(&mut asked, questions)?;
    }
    Ok(asked)
}

/// Returns the questions of a state that the edges with these `numbers` leave. Fails as `questions_of` does.
fn asked_in(
    alloc: Global,
    automaton: &Automaton,
    places: &[EdgePlace],
    numbers: &[u32],
    controlled: &[u32],
) -> Result<Questions, Refusal>
    requires places { ArePlaces automaton.now places.now }
    requires leave { (state : ℕ) × AllLeave automaton.now state numbers.now }
    ensures questions { IfOk result (λ questions. AreQuestionsOf automaton.now controlled.now
        numbers.now questions.letters.items questions.answers.items) }
    ensures few { OnOk result (HaveFewInputs automaton.now controlled.now numbers.now) }
    ensures refused { IfErr result (IsQuestionsOfRefusal automaton.now controlled.now numbers.now) }
{
    questions_of(alloc, automaton, places, numbers, controlled)
}

/// Appends the `questions` of one state more.
fn add(asked: &mut StatesAsked, questions: Questions) -> Result<(), Refusal>
    requires fits { length asked.old.answers.items + length questions.answers.items ≤ most_nodes }
    ensures ranges { OnOk result (asked.new.ranges.items ≡ asked.old.ranges.items ++ record {
      first = length asked.old.answers.items;
      end = length asked.old.answers.items + length questions.answers.items;
    } ∷ []) }
    ensures letters { OnOk result
        (asked.new.letters.items ≡ asked.old.letters.items ++ questions.letters.items) }
    ensures answers { OnOk result
        (asked.new.answers.items ≡ asked.old.answers.items ++ questions.answers.items) }
    ensures memory { IsOkUnless result Refusal.Memory }
{
    let mut questions = questions;
    let first = asked.answers.len() as u32;
    let count = questions.answers.len() as u32;
    asked.ranges.push(QuestionRange {
        first,
        end: first + count,
    })?;
    asked.letters.append(&mut questions.letters)?;
    asked.answers.append(&mut questions.answers)?;
    Ok(())
}
