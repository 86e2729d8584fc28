//! Automata without their useless states.

ghost use Rattle.std.specs.Prelude.{◌≡◌, ◌+◌, ◌-◌, ◌^◌, ◌<◌, IfErr, IfOk};
ghost use Rattle.omega_text.specs.Cases.{or_io, or_memory};
ghost use Rattle.omega_io.specs.Failures.{failures_of};
ghost use Rattle.omega_io.specs.Reading.{ReadsText, ReadsWhole};
ghost use Rattle.omega_answers_stream.specs.Answer.{AppendsAnswer, not_io};
ghost use Rattle.omega_answers_stream_questions.specs.Items.{AnswersItem, RefusesAutomaton, nothing_written};
ghost use Rattle.omega_answers_stream_questions.specs.Trim.{AreTrimAnswers, IsTrimStreamRefusal};
ghost use Rattle.omega_answers_stream_questions.specs.Trim.{IsTrimmedAnswer};
ghost use Rattle.omega_lang_trim.specs.Refusing.{IsTrimRefusal};

use omega_answers_automaton::trim_automaton;
use omega_answers_stream::{Answers, Automaton, Input, Item, ItemQuestion, ask_stream};
use omega_text::Refusal;
use std::alloc::Global;

/// Returns the canonical texts of the automata of the stream that `input` gives, in turn, without their useless states,
/// those that no start reaches or in which no accepting lasso starts. Nothing is written for an aborted segment, and
/// the answer is never `no`.
///
/// Fails with the [Refusal::Text] or [Refusal::Automaton] of the stream, or else with the refusal of the first
/// automaton that is refused, the first of [TaskFault::UniversalBranch], [TaskFault::TooManyPropositions] and
/// [TaskFault::TooLarge] that `trim` meets. Fails with [Refusal::Io] if a read failed.
pub fn trim_stream<R: Input>(alloc: Global, input: &mut R) -> Result<Answers, Refusal>
    requires { R.failed input.old < 2 ^ 64 - 1 }
    ensures answers { IfOk result (λ answers. ReadsWhole (R.remaining input.old)
        (R.remaining input.new) (λ text. AreTrimAnswers text answers.text.items answers.no
        answers.automata)) }
    ensures refused { IfErr result (or_memory (or_io (λ refusal. ReadsText (R.remaining input.old)
        (R.remaining input.new) (λ text. IsTrimStreamRefusal text refusal)))) }
    ensures counted { R.failed input.new ≡ R.failed input.old + failures_of result }
{
    ask_stream::<Trimmed, R>(alloc, input, &Trimmed)
}

/// Asks for an automaton without its useless states.
#[derive(Drop)]
struct Trimmed;

impl ItemQuestion for Trimmed {
    ghost answers = { λ _. AnswersItem IsTrimmedAnswer nothing_written };

    ghost refuses = { λ _. RefusesAutomaton IsTrimRefusal };

    fn append(
        &self,
        alloc: Global,
        _number: usize,
        item: &Item,
        out: &mut Vec<u8>,
    ) -> Result<bool, Refusal> {
        match item {
            Item::Automaton(automaton) => append_trimmed(alloc, automaton, out),
            Item::Aborted => Ok(false),
        }
    }
}

/// Appends the answer for `automaton`, which is never `no`.
fn append_trimmed(alloc: Global, automaton: &Automaton, out: &mut Vec<u8>) -> Result<bool, Refusal>
    ensures answer { IfOk result (λ no.
        AppendsAnswer (IsTrimmedAnswer automaton.now) out.old.items out.new.items no) }
    ensures refused { IfErr result (or_memory (not_io (IsTrimRefusal automaton.now))) }
{
    let text = trim_automaton(alloc, automaton)?;
    out.extend_from_slice(text.as_slice())?;
    Ok(false)
}
