//! A letter of the environment that no edge of a state answers.

ghost use Rattle.std.specs.Prelude.{◌≡◌, ◌<◌, [], ℕ, Bool, All, IfErr, IfNone};
ghost use Rattle.std.specs.Prelude.{IfOk, IfSome, OnOk, length, slice_index_or};
ghost use Rattle.omega_lang_runs.specs.Places.{ArePlaces};
ghost use Rattle.omega_synth_game.specs.Making.{HaveFewInputs, IsQuestionsOfRefusal};
ghost use Rattle.omega_synth_check.specs.Judging.{AreInputs};
ghost use Rattle.omega_synth_check.specs.private.Searching.{NoneAnswers, SomeAnswers};

use omega_hoa_automaton::{Automaton, Refusal};
use omega_lang_runs::EdgePlace;
use omega_synth_game::questions_of;
use omega_text::Numbers;
use std::alloc::Global;

/// Returns a letter of the environment that none of the edges with these `numbers` answers, by those of its
/// propositions that hold; none if each letter has an answer. Reads the `places` of all edges. Fails as `questions_of`
/// does.
pub(crate) fn unanswered_letter(
    alloc: Global,
    automaton: &Automaton,
    places: &[EdgePlace],
    numbers: &[u32],
    controlled: &[u32],
) -> Result<Option<Numbers>, Refusal>
    requires places { ArePlaces automaton.now places.now }
    requires numbers { All (λ number. number < length places.now) numbers.now }
    ensures unanswered { IfOk result
        (λ found. IfSome found (λ letter. NoneAnswers automaton.now controlled.now numbers.now letter)) }
    ensures inputs { IfOk result (λ found. IfSome found (AreInputs automaton.now controlled.now)) }
    ensures answered { IfOk result (λ found. IfNone found
        ((given : ℕ → Bool) → SomeAnswers automaton.now controlled.now numbers.now given)) }
    ensures few { OnOk result (HaveFewInputs automaton.now controlled.now numbers.now) }
    ensures refused { IfErr result (IsQuestionsOfRefusal automaton.now controlled.now numbers.now) }
{
    automaton.keeps_limits();
    let questions = questions_of(alloc, automaton, places, numbers, controlled)?;
    match first_empty(questions.answers.as_slice()) {
        None => Ok(None),
        Some(at) => {
            let letter = Numbers::from_slice(alloc, questions.letters[at].as_slice())?;
            Ok(Some(letter))
        }
    }
}

/// Returns the index of the first empty list.
fn first_empty(lists: &[Numbers]) -> Option<usize>
    ensures within { IfSome result (λ at. at < length lists.now) }
    ensures empty { IfSome result (λ at. slice_index_or lists.now at [] ≡ []) }
    ensures none { IfNone result
        ((at : ℕ) → at < length lists.now → 0 < length (slice_index_or lists.now at [])) }
{
    for (at, list) in lists.iter().enumerate() {
        if list.len() == 0 {
            return Some(at);
        }
    }
    None
}
