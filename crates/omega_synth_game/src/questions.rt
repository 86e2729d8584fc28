//! The questions of states: a class of letters each, with the edges that answer them.

ghost use Rattle.std.specs.Prelude.{◌≡◌, ◌^◌, ◌<◌, ◌≤◌, All, IfErr, IfOk, IsOkUnless};
ghost use Rattle.std.specs.Prelude.{OnOk, length, map};
ghost use Rattle.omega_hoa_expression.specs.Limits.{most_mentioned};
ghost use Rattle.omega_lang_runs.specs.Places.{ArePlaces};
ghost use Rattle.omega_synth_game.specs.Classes.{mentioned_inputs};
ghost use Rattle.omega_synth_game.specs.private.Firsts.{list_at};
ghost use Rattle.omega_synth_game.specs.Letters.{letter_numbered};
ghost use Rattle.omega_synth_game.specs.Making.{AreQuestionsOf, HaveFewInputs};
ghost use Rattle.omega_synth_game.specs.private.Making.{AreAnswersByLetter};
ghost use Rattle.omega_synth_game.specs.Making.{IsQuestionsOfRefusal};
ghost use Rattle.omega_synth_game.specs.private.Making.{IsSomeLetterUnanswered};

use crate::edge_words::words_at;
use crate::firsts::first_places;
use crate::in_lane::set_in_lane;
use crate::inputs::{letter_count, letter_numbered, mentioned_inputs};
use crate::lanes::Lanes;
use crate::stack::Stack;
use omega_hoa_automaton::{Automaton, Refusal};
use omega_lang_runs::{EdgePlace, edges_are_taken_where_true};
use omega_text::Numbers;
use std::alloc::Global;

/// Questions: a letter of each, by the propositions that hold, and the numbers of the edges that answer it.
#[derive(Debug)]
pub struct Questions {
    /// The letters.
    pub letters: Vec<Numbers>,
    /// For each letter the edges that answer it.
    pub answers: Vec<Numbers>,
}

impl Drop for Questions {
    fn drop(self) {
        let Questions {
            letters: _,
            answers: _,
        } = self;
    }
}

/// Returns the questions of a state that the edges with these `numbers` leave: one for each class of letters that the
/// same of these edges answer, with the first letter of the class. Letters over the `m` inputs that the labels mention
/// have the numbers up to `2^m`, and each is tried; the classes are found by their answers in a table. Reads the
/// `places` of all edges.
///
/// Fails with [TaskFault::TooManyPropositions] if the labels mention over `MOST_MENTIONED` inputs, or if what a letter
/// leaves of a label is not decided, and with [TaskFault::TooLarge] if the label of a valuation would be too deep or
/// too large.
pub fn questions_of(
    alloc: Global,
    automaton: &Automaton,
    places: &[EdgePlace],
    numbers: &[u32],
    controlled: &[u32],
) -> Result<Questions, Refusal>
    requires places { ArePlaces automaton.now places.now }
    requires numbers { All (λ number. number < length places.now) numbers.now }
    ensures questions { IfOk result (λ questions. AreQuestionsOf automaton.now controlled.now
        numbers.now questions.letters.items questions.answers.items) }
    ensures few { OnOk result (HaveFewInputs automaton.now controlled.now numbers.now) }
    ensures refused { IfErr result (IsQuestionsOfRefusal automaton.now controlled.now numbers.now) }
{
    edges_are_taken_where_true();
    let mentioned = mentioned_inputs(alloc, automaton, places, numbers, controlled)?;
    let inputs = mentioned.as_slice();
    let listed = answers_by_letter(alloc, automaton, places, numbers, controlled, inputs)?;
    let answers = listed.as_slice();
    let firsts = first_places(alloc, answers)?;
    questions_at(alloc, inputs, answers, firsts.as_slice())
}

/// Returns for each letter over `inputs`, by its number, those of the edges with these `numbers` that answer it. Judges
/// the labels once for each 64 letters.
fn answers_by_letter(
    alloc: Global,
    automaton: &Automaton,
    places: &[EdgePlace],
    numbers: &[u32],
    controlled: &[u32],
    inputs: &[u32],
) -> Result<Vec<Numbers>, Refusal>
    requires places { ArePlaces automaton.now places.now }
    requires numbers { All (λ number. number < length places.now) numbers.now }
    requires inputs { inputs.now ≡ mentioned_inputs automaton.now controlled.now numbers.now }
    requires few { length inputs.now ≤ most_mentioned }
    ensures answers { IfOk result (λ answers. AreAnswersByLetter automaton.now controlled.now
        numbers.now inputs.now (2 ^ length inputs.now) answers.items) }
    ensures refused { IfErr result (IsSomeLetterUnanswered automaton.now controlled.now numbers.now) }
{
    let count = letter_count(inputs.len());
    let mut stack = Stack::new(alloc);
    let mut words = Vec::new(alloc);
    let mut answers = Vec::new(alloc);
    for letter in 0..count {
        let lanes = Lanes {
            controlled,
            inputs,
            block: letter / 64,
        };
        let lane = letter % 64;
        words = words_at(
            alloc, automaton, places, numbers, &lanes, lane, words, &mut stack,
        )?;
        let next = set_in_lane(alloc, numbers, words.as_slice(), lane)?;
        answers.push(next)?;
    }
    Ok(answers)
}

/// Returns the questions of the letters over `inputs` with the numbers `firsts`, whose answers stand at these places of
/// `answers`.
fn questions_at(
    alloc: Global,
    inputs: &[u32],
    answers: &[Numbers],
    firsts: &[u32],
) -> Result<Questions, Refusal>
    requires { All (λ number. number < length answers.now) firsts.now }
    ensures letters { IfOk result
        (λ questions. questions.letters.items ≡ map (letter_numbered inputs.now) firsts.now) }
    ensures answers { IfOk result
        (λ questions. questions.answers.items ≡ map (list_at answers.now) firsts.now) }
    ensures memory { IsOkUnless result Refusal.Memory }
{
    let mut questions = Questions {
        letters: Vec::new(alloc),
        answers: Vec::new(alloc),
    };
    for first in firsts {
        let letter = letter_numbered(alloc, inputs, *first)?;
        questions.letters.push(letter)?;
        let listed = Numbers::from_slice(alloc, answers[*first as usize].as_slice())?;
        questions.answers.push(listed)?;
    }
    Ok(questions)
}
