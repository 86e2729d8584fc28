//! Whether automata are contained in that of a file.

ghost use Rattle.std.specs.Prelude.{◌≡◌, ◌+◌, ◌-◌, ◌^◌, ◌<◌, ℕ, List, IfErr, IfOk};
ghost use Rattle.omega_text.specs.Cases.{or_memory};
ghost use Rattle.omega_lang_inclusion.specs.Refusing.{IsContainmentRefusal};
ghost use Rattle.omega_hoa.specs.Alone.{IsAutomatonText};
ghost use Rattle.omega_io.specs.Reading.{ReadsWhole};
ghost use Rattle.omega_answers_stream.specs.Answer.{AppendsAnswer, not_io};
ghost use Rattle.omega_answers_stream.specs.Asking.{IsAnswered};
ghost use Rattle.omega_answers_stream_questions.specs.Contained.{AreContainedAnswers, IsContainedAnswer};
ghost use Rattle.omega_answers_stream_questions.specs.Contained.{IsContainedStreamRefused, failures_of};
ghost use Rattle.omega_answers_stream_questions.specs.Items.{AnswersItem, RefusesAutomaton, aborted_line};

use crate::aborted::append_aborted;
use omega_answers::{Exit, refused_for};
use omega_answers_inclusion::contained_automata;
use omega_answers_stream::{Answers, Asked, Automaton, Input, Item, ItemQuestion, ask_each};
use omega_hoa::read_one;
use omega_io::{Refused, Which};
use omega_text::Refusal;
use std::alloc::Global;

/// Decides for each automaton of the stream that `input` gives, in turn, whether that of `file`, which is to be
/// deterministic, accepts each word that it accepts. Returns for each of them `yes`, or `no`, and if `explain` is set,
/// after `no` an accepting lasso of the automaton of the stream and its word, and for an aborted segment the line
/// `aborted`. The answer is `no` if it is so for one of the automata.
///
/// Fails with the [Refusal::Text] or [Refusal::Automaton] of `file`, or else with that of the stream. Or else fails
/// with the refusal of the first automaton that is refused, as `contained` of `omega_lang_inclusion` refuses it with
/// that of the file: [TaskFault::NotDeterministic] is about `file`, and [TaskFault::TooLarge],
/// [TaskFault::TooManyPropositions] and [TaskFault::UniversalBranch] are about neither text, as is [Refusal::Io] if a
/// read failed.
pub fn contained_stream<R: Input>(
    alloc: Global,
    input: &mut R,
    file: &[u8],
    explain: bool,
) -> Result<Answers, Refused>
    requires { R.failed input.old < 2 ^ 64 - 1 }
    ensures answers { IfOk result
        (λ answers. ReadsWhole (R.remaining input.old) (R.remaining input.new)
        (λ text. AreContainedAnswers file.now text explain answers.text.items answers.no
        answers.automata)) }
    ensures refused { IfErr result (IsContainedStreamRefused file.now explain
        (R.remaining input.old) (R.remaining input.new)) }
    ensures counted { R.failed input.new ≡ R.failed input.old + failures_of result }
{
    match read_one(alloc, file) {
        Ok(automaton) => contained_in::<R>(alloc, input, &automaton, explain),
        Err(refusal) => Err(Refused::of(Which::File, refusal)),
    }
}

/// Returns the answers for the stream and the automaton of the file. Fails as `contained_stream` does after the file is
/// read.
fn contained_in<R: Input>(
    alloc: Global,
    input: &mut R,
    file: &Automaton,
    explain: bool,
) -> Result<Answers, Refused>
    requires { R.failed input.old < 2 ^ 64 - 1 }
    ensures answered { IfOk result
        (λ answers. ReadsWhole (R.remaining input.old) (R.remaining input.new)
        (λ text. IsAnswered (AnswersItem (IsContainedAnswer file.now explain) aborted_line) text
        answers.text.items answers.no answers.automata)) }
    ensures refused { (text : List ℕ) → IsAutomatonText text file.now → IfErr result
        (IsContainedStreamRefused text explain (R.remaining input.old) (R.remaining input.new)) }
    ensures counted { R.failed input.new ≡ R.failed input.old + failures_of result }
{
    let question = ContainedIn { file, explain };
    match ask_each::<ContainedIn<'_>, R>(alloc, input, &question) {
        Ok(asked) => {
            let Asked { answers, refused } = asked;
            match refused {
                None => Ok(answers),
                Some(refusal) => Err(refused_for(Which::File, refusal)),
            }
        }
        Err(refusal) => Err(Refused::of(Which::Input, refusal)),
    }
}

/// Asks whether the automaton of a file accepts each word that an automaton accepts.
#[derive(Drop)]
struct ContainedIn<'f> {
    file: &'f Automaton,
    explain: bool,
}

impl<'f> ItemQuestion for ContainedIn<'f> {
    ghost answers = { λ question.
        AnswersItem (IsContainedAnswer question.file.now question.explain) aborted_line };

    ghost refuses = { λ question.
        RefusesAutomaton (λ one. IsContainmentRefusal one question.file.now) };

    fn append(
        &self,
        alloc: Global,
        _number: usize,
        item: &Item,
        out: &mut Vec<u8>,
    ) -> Result<bool, Refusal> {
        match item {
            Item::Automaton(automaton) => append_contained(
                alloc,
                automaton,
                self.file,
                self.explain,
                out,
            ),
            Item::Aborted => append_aborted(out),
        }
    }
}

/// Appends the answer for `automaton` and that of the file, and returns whether it is `no`.
fn append_contained(
    alloc: Global,
    automaton: &Automaton,
    file: &Automaton,
    explain: bool,
    out: &mut Vec<u8>,
) -> Result<bool, Refusal>
    ensures answer { IfOk result (λ no. AppendsAnswer
        (IsContainedAnswer file.now explain automaton.now) out.old.items out.new.items no) }
    ensures refused { IfErr result (or_memory (not_io (IsContainmentRefusal automaton.now file.now))) }
{
    let (exit, text) = contained_automata(alloc, automaton, file, explain)?;
    out.extend_from_slice(text.as_slice())?;
    Ok(exit == Exit::No)
}
