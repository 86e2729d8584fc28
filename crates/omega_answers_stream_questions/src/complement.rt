//! The complements of automata.

ghost use Rattle.std.specs.Prelude.{◌≡◌, ◌+◌, ◌-◌, ◌^◌, ◌<◌, IfErr, IfOk};
ghost use Rattle.omega_text.specs.Cases.{or_io, or_memory};
ghost use Rattle.omega_lang_complement.specs.Refusing.{IsUncomplemented};
ghost use Rattle.omega_io.specs.Failures.{failures_of};
ghost use Rattle.omega_io.specs.Reading.{ReadsText, ReadsWhole};
ghost use Rattle.omega_answers_stream.specs.Answer.{AppendsAnswer, not_io};
ghost use Rattle.omega_answers_stream_questions.specs.Complement.{AreComplementAnswers};
ghost use Rattle.omega_answers_stream_questions.specs.Complement.{IsComplementStreamRefusal};
ghost use Rattle.omega_answers_stream_questions.specs.Complement.{IsComplementedAnswer};
ghost use Rattle.omega_answers_stream_questions.specs.Items.{AnswersItem, RefusesAutomaton, nothing_written};

use omega_answers_automaton::complement_automaton;
use omega_answers_stream::{Answers, Automaton, Input, Item, ItemQuestion, ask_stream};
use omega_text::Refusal;
use std::alloc::Global;

/// Returns the canonical texts of the complements of the automata of the stream that `input` gives, in turn. Nothing is
/// written for an aborted segment, and the answer is never `no`.
///
/// Fails with the [Refusal::Text] or [Refusal::Automaton] of the stream, or else with the refusal of the first
/// automaton that is refused: [TaskFault::UniversalBranch], or else the first of [TaskFault::TooManyPropositions],
/// [TaskFault::TooLarge] and [TaskFault::NotDeterministic] that `complement` meets. Fails with [Refusal::Io] if a read
/// failed.
pub fn complement_stream<R: Input>(alloc: Global, input: &mut R) -> Result<Answers, Refusal>
    requires { R.failed input.old < 2 ^ 64 - 1 }
    ensures answers { IfOk result (λ answers. ReadsWhole (R.remaining input.old)
        (R.remaining input.new) (λ text. AreComplementAnswers text answers.text.items answers.no
        answers.automata)) }
    ensures refused { IfErr result (or_memory (or_io (λ refusal. ReadsText (R.remaining input.old)
        (R.remaining input.new) (λ text. IsComplementStreamRefusal text refusal)))) }
    ensures counted { R.failed input.new ≡ R.failed input.old + failures_of result }
{
    ask_stream::<Complemented, R>(alloc, input, &Complemented)
}

/// Asks for the complement of an automaton.
#[derive(Drop)]
struct Complemented;

impl ItemQuestion for Complemented {
    ghost answers = { λ _. AnswersItem IsComplementedAnswer nothing_written };

    ghost refuses = { λ _. RefusesAutomaton IsUncomplemented };

    fn append(
        &self,
        alloc: Global,
        _number: usize,
        item: &Item,
        out: &mut Vec<u8>,
    ) -> Result<bool, Refusal> {
        match item {
            Item::Automaton(automaton) => append_complement(alloc, automaton, out),
            Item::Aborted => Ok(false),
        }
    }
}

/// Appends the answer for `automaton`, which is never `no`.
fn append_complement(
    alloc: Global,
    automaton: &Automaton,
    out: &mut Vec<u8>,
) -> Result<bool, Refusal>
    ensures answer { IfOk result (λ no.
        AppendsAnswer (IsComplementedAnswer automaton.now) out.old.items out.new.items no) }
    ensures refused { IfErr result (or_memory (not_io (IsUncomplemented automaton.now))) }
{
    let text = complement_automaton(alloc, automaton)?;
    out.extend_from_slice(text.as_slice())?;
    Ok(false)
}
