//! Whether automata are empty, by lifting in the emptiness game of each.

ghost use Rattle.std.specs.Prelude.{◌≡◌, ◌+◌, ◌-◌, ◌^◌, ◌<◌, ◌≤◌, IfErr, IfOk};
ghost use Rattle.omega_text.specs.Cases.{or_io, or_memory};
ghost use Rattle.omega_empty.specs.Deciding.{IsEmptinessRefusal};
ghost use Rattle.omega_io.specs.Failures.{failures_of};
ghost use Rattle.omega_io.specs.Reading.{ReadsText, ReadsWhole};
ghost use Rattle.omega_solve.specs.Limits.{most_lifts};
ghost use Rattle.omega_answers_stream.specs.Answer.{AppendsAnswer, not_io};
ghost use Rattle.omega_answers_stream_questions.specs.Empty.{AreLiftingAnswers, IsLiftingAnswer};
ghost use Rattle.omega_answers_stream_questions.specs.Empty.{IsLiftingStreamRefusal};
ghost use Rattle.omega_answers_stream_questions.specs.Items.{AnswersItem, RefusesAutomaton, aborted_line};

use crate::aborted::append_aborted;
use omega_answers::Exit;
use omega_answers_empty::{Lines, decide_automaton};
use omega_answers_stream::{Answers, Automaton, Input, Item, ItemQuestion, ask_stream};
use omega_solve::budget::NoObserver;
use omega_text::Refusal;
use std::alloc::Global;

/// Decides by lifting, for each automaton of the stream that `input` gives, in turn, whether it is empty. The budget is
/// that of each automaton. Returns for each of them `empty`, or an accepting lasso with the wanted `lines`, and for an
/// aborted segment the line `aborted`. The answer is `no` if one of the automata is empty.
///
/// Fails with the [Refusal::Text] or [Refusal::Automaton] of the stream, or else with the refusal of the first
/// automaton that is refused, the first that applies of [GameFault::TooManyNodes], [TaskFault::NotParity],
/// [TaskFault::UniversalBranch], [TaskFault::TooManyPropositions], [TaskFault::TooWide] and [TaskFault::Budget]. Fails
/// with [Refusal::Io] if a read failed.
pub fn empty_stream_by_lifting<R: Input>(
    alloc: Global,
    input: &mut R,
    lines: Lines,
    budget: u64,
) -> Result<Answers, Refusal>
    requires reads { R.failed input.old < 2 ^ 64 - 1 }
    requires budget { budget ≤ most_lifts }
    ensures answers { IfOk result
        (λ answers. ReadsWhole (R.remaining input.old) (R.remaining input.new)
        (λ text. AreLiftingAnswers text budget lines answers.text.items answers.no
        answers.automata)) }
    ensures refused { IfErr result (or_memory (or_io (λ refusal.
        ReadsText (R.remaining input.old) (R.remaining input.new)
        (λ text. IsLiftingStreamRefusal text budget lines refusal)))) }
    ensures counted { R.failed input.new ≡ R.failed input.old + failures_of result }
{
    let question = ByLifting { lines, budget };
    ask_stream::<ByLifting, R>(alloc, input, &question)
}

/// Asks whether an automaton is empty, by lifting within a budget.
#[derive(Drop)]
struct ByLifting {
    lines: Lines,
    budget: u64,
    ghost within: { budget ≤ most_lifts },
}

impl ItemQuestion for ByLifting {
    ghost answers = { λ question.
        AnswersItem (IsLiftingAnswer question.budget question.lines) aborted_line };

    ghost refuses = { λ question.
        RefusesAutomaton (λ automaton. IsEmptinessRefusal automaton question.budget) };

    fn append(
        &self,
        alloc: Global,
        _number: usize,
        item: &Item,
        out: &mut Vec<u8>,
    ) -> Result<bool, Refusal> {
        match item {
            Item::Automaton(automaton) => append_decided(
                alloc,
                automaton,
                self.lines,
                self.budget,
                out,
            ),
            Item::Aborted => append_aborted(out),
        }
    }
}

/// Appends the answer for `automaton`, and returns whether it is empty.
fn append_decided(
    alloc: Global,
    automaton: &Automaton,
    lines: Lines,
    budget: u64,
    out: &mut Vec<u8>,
) -> Result<bool, Refusal>
    requires { budget ≤ most_lifts }
    ensures answer { IfOk result (λ no.
        AppendsAnswer (IsLiftingAnswer budget lines automaton.now) out.old.items out.new.items no) }
    ensures refused { IfErr result (or_memory (not_io (IsEmptinessRefusal automaton.now budget))) }
{
    let (exit, text) = decide_automaton(
        alloc,
        automaton,
        lines,
        true,
        budget,
        &NoObserver,
        &mut (),
    )?;
    out.extend_from_slice(text.as_slice())?;
    Ok(exit == Exit::No)
}
