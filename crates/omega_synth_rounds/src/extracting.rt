ghost use Rattle.std.specs.Prelude.{◌≡◌, ℕ, ◌<◌, ◌≤◌, IfOk, IsOkUnless, MatchOption, length};
ghost use Rattle.std.specs.List.Sorted.{IsStrictlyIncreasing};
ghost use Rattle.omega_game_values.specs.Limits.{most_nodes};
ghost use Rattle.omega_synth_rounds.specs.Extracting.{AreChosenAnswers, AreChosenQuestions, HaveSameNumbers};
ghost use Rattle.omega_synth_rounds.specs.Extracting.{IsAnswerAt, IsChosenQuestion};
ghost use Rattle.omega_synth_rounds.specs.RoundsGame.{node_count};

use crate::nodes::answers_of;
use crate::rounds::Rounds;
use omega_text::Refusal;
use std::alloc::Global;

/// What player 1 asks by state, and the edges that answer it.
#[derive(Drop)]
pub struct AskedQuestions {
    /// The numbers of the edges that answer the questions asked, each once, in rising order.
    pub kept: Vec<u32>,
    /// The number of the question asked in each state; 0 where none is chosen.
    pub asked: Vec<u32>,
}

/// Returns the numbers of the edges that player 0 chooses at questions, by the `choices` in the game of `rounds`, each
/// once, in rising order.
pub fn chosen_answers(
    alloc: Global,
    rounds: &Rounds,
    choices: &[Option<u32>],
) -> Result<Vec<u32>, Refusal>
    requires fits { node_count rounds.now ≤ most_nodes }
    requires entries { length choices.now ≡ node_count rounds.now }
    ensures chosen { IfOk result (λ kept. AreChosenAnswers rounds.now choices.now kept.items) }
    ensures rising { IfOk result (λ kept. IsStrictlyIncreasing kept.items) }
    ensures memory { IsOkUnless result Refusal.Memory }
{
    let mut kept = Vec::new(alloc);
    for question in 0..rounds.questions.len() {
        if let Some(number) = answer_at(rounds, choices, question) {
            kept.push(number)?;
        }
    }
    Ok(rising_numbers(kept))
}

/// Returns `numbers` in rising order, each once.
fn rising_numbers(mut numbers: Vec<u32>) -> Vec<u32>
    ensures same { HaveSameNumbers result.items numbers.items }
    ensures rising { IsStrictlyIncreasing result.items }
{
    numbers.sort_unstable();
    numbers.dedup();
    numbers
}

/// Returns the number of the edge that player 0 chooses at `question`, if there is one.
fn answer_at(rounds: &Rounds, choices: &[Option<u32>], question: usize) -> Option<u32>
    requires fits { node_count rounds.now ≤ most_nodes }
    requires entries { length choices.now ≡ node_count rounds.now }
    requires question { question < length rounds.now.questions }
    ensures { MatchOption result
        ((number : ℕ) → ¬ IsAnswerAt rounds.now choices.now question number)
        (IsAnswerAt rounds.now choices.now question) }
{
    let states = rounds.states.len() as u32;
    let sink = states + rounds.edges.len() as u32;
    let choice = choices[sink as usize + 1 + question];
    match choice {
        Some(chosen) if states <= chosen && chosen < sink => Some(chosen - states),
        _ => None,
    }
}

/// Returns the questions that player 1 chooses in states, by the `choices` in the game of `rounds`, and the edges that
/// answer them.
pub fn asked_questions(
    alloc: Global,
    rounds: &Rounds,
    choices: &[Option<u32>],
) -> Result<AskedQuestions, Refusal>
    requires fits { node_count rounds.now ≤ most_nodes }
    requires entries { length choices.now ≡ node_count rounds.now }
    ensures chosen { IfOk result
        (λ found. AreChosenQuestions rounds.now choices.now found.kept.items found.asked.items) }
    ensures rising { IfOk result (λ found. IsStrictlyIncreasing found.kept.items) }
    ensures memory { IsOkUnless result Refusal.Memory }
{
    let mut kept = Vec::new(alloc);
    let mut asked = Vec::new(alloc);
    for state in 0..rounds.states.len() {
        if let Some(question) = question_at(rounds, choices, state) {
            kept.extend_from_slice(answers_of(rounds, question))?;
            asked.push(question)?;
        } else {
            asked.push(0)?;
        }
    }
    Ok(AskedQuestions {
        kept: rising_numbers(kept),
        asked,
    })
}

/// Returns the number of the question that player 1 chooses in `state`, if there is one.
fn question_at(rounds: &Rounds, choices: &[Option<u32>], state: usize) -> Option<u32>
    requires fits { node_count rounds.now ≤ most_nodes }
    requires entries { length choices.now ≡ node_count rounds.now }
    requires state { state < length rounds.now.states }
    ensures { MatchOption result
        ((question : ℕ) → ¬ IsChosenQuestion rounds.now choices.now state question)
        (IsChosenQuestion rounds.now choices.now state) }
{
    let first = (rounds.states.len() + rounds.edges.len()) as u32 + 1;
    let count = rounds.questions.len() as u32;
    let choice = choices[state];
    match choice {
        Some(chosen) if first <= chosen && chosen - first < count => Some(chosen - first),
        _ => None,
    }
}
