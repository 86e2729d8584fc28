ghost use Rattle.std.specs.Prelude.{◌≡◌, ◌+◌, ◌-◌, ◌^◌, ◌<◌, IfOk, IfErr};
ghost use Rattle.omega_text.specs.Cases.{or_io, or_memory};
ghost use Rattle.omega_hoa.specs.Stream.{IsStreamRefusal};
ghost use Rattle.omega_io.specs.Failures.{failures_of};
ghost use Rattle.omega_io.specs.Reading.{ReadsTextFrom, ReadsWholeFrom};
ghost use Rattle.omega_answers_stream.specs.Asking.{IsAnswered, IsAsked, IsAskingRefusal};

use crate::answers::Answers;
use crate::asked::Asked;
use crate::asking::{begin, end};
use crate::item_question::ItemQuestion;
use crate::stretch::take_stretch;
use omega_io::Input;
use omega_text::{MOST_TEXT, Refusal, TextFault};
use std::alloc::Global;

/// Asks each item of the stream that `input` gives, in turn, and returns the answers. Fails with the refusal of the
/// stream's text, or else with that of the first item that is refused, with [Refusal::Memory], or with [Refusal::Io] if
/// a read failed.
///
/// The input is read as [ask_each] reads it.
pub fn ask_stream<Q: ItemQuestion, R: Input>(
    alloc: Global,
    input: &mut R,
    question: &Q,
) -> Result<Answers, Refusal>
    requires { R.failed input.old < 2 ^ 64 - 1 }
    ensures answered { IfOk result (λ answers. ReadsWholeFrom R.Input input.old input.new
        (λ text. IsAnswered (Q.answers question.now) text answers.text.items answers.no
        answers.automata)) }
    ensures refused { IfErr result
        (or_memory (or_io (λ refusal. ReadsTextFrom R.Input input.old input.new
        (λ text. IsAskingRefusal (Q.answers question.now) (Q.refuses question.now) text refusal)))) }
    ensures counted { R.failed input.new ≡ R.failed input.old + failures_of result }
{
    let Asked { answers, refused } = ask_each::<Q, R>(alloc, input, question)?;
    match refused {
        None => Ok(answers),
        Some(refusal) => Err(refusal),
    }
}

/// Asks each item of the stream that `input` gives, in turn, and returns the answers, or the refusal of the first item
/// that is refused. Fails with the refusal of the stream's text, with [Refusal::Memory], or with [Refusal::Io] if a
/// read failed.
///
/// The input is read in stretches of about 1 MB. An automaton that lies in one of them is read once, and asked before
/// the next one is read. Only the stretch and the segment that has not ended are kept, and the answers so far. If an
/// item or the stream is refused, no item is asked from there on, but the rest of the input is read on, to its end or
/// to the first byte past the greatest length of a text.
pub fn ask_each<Q: ItemQuestion, R: Input>(
    alloc: Global,
    input: &mut R,
    question: &Q,
) -> Result<Asked, Refusal>
    requires { R.failed input.old < 2 ^ 64 - 1 }
    ensures asked { IfOk result (λ asked. ReadsWholeFrom R.Input input.old input.new
        (λ text. IsAsked (Q.answers question.now) (Q.refuses question.now) text asked)) }
    ensures refused { IfErr result (or_memory (or_io (λ refusal.
        ReadsTextFrom R.Input input.old input.new (λ text. IsStreamRefusal text refusal)))) }
    ensures counted { R.failed input.new ≡ R.failed input.old + failures_of result }
{
    let mut asking = begin::<Q>(alloc, question);
    let mut total = 0;
    while total <= MOST_TEXT {
        let stretch = take_stretch::<Q, R>(alloc, input, question, &mut asking, total)?;
        total += stretch.count;
        if stretch.last {
            return end::<Q>(question, asking);
        }
    }
    Err(Refusal::Text(TextFault::TooLong))
}
