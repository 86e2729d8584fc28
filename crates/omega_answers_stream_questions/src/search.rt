//! Whether automata are empty, by a search in each.

ghost use Rattle.std.specs.Prelude.{◌≡◌, ◌+◌, ◌-◌, ◌^◌, ◌<◌, IfErr, IfOk};
ghost use Rattle.omega_text.specs.Cases.{or_io, or_memory};
ghost use Rattle.omega_io.specs.Failures.{failures_of};
ghost use Rattle.omega_io.specs.Reading.{ReadsText, ReadsWhole};
ghost use Rattle.omega_lang_lasso_search.specs.Searching.{IsSearchRefusal};
ghost use Rattle.omega_answers_stream.specs.Answer.{AppendsAnswer, not_io};
ghost use Rattle.omega_answers_stream_questions.specs.Empty.{AreSearchAnswers, IsSearchAnswer};
ghost use Rattle.omega_answers_stream_questions.specs.Empty.{IsSearchStreamRefusal};
ghost use Rattle.omega_answers_stream_questions.specs.Items.{AnswersItem, RefusesAutomaton, aborted_line};

use crate::aborted::append_aborted;
use omega_answers::Exit;
use omega_answers_empty::{Lines, search_automaton};
use omega_answers_stream::{Answers, Automaton, Input, Item, ItemQuestion, ask_stream};
use omega_text::Refusal;
use std::alloc::Global;

/// Decides by a search for each automaton of the stream that `input` gives, in turn, whether it is empty. Returns for
/// each of them `empty`, or an accepting lasso, with the wanted `lines`, and for an aborted segment the line
/// `aborted`. The answer is `no` if one of the automata is empty.
///
/// Fails with the [Refusal::Text] or [Refusal::Automaton] of the stream, or else with the refusal of the first
/// automaton that is refused: [TaskFault::UniversalBranch], or else [TaskFault::TooManyPropositions]. Fails with
/// [Refusal::Io] if a read failed.
pub fn empty_stream_by_search<R: Input>(
    alloc: Global,
    input: &mut R,
    lines: Lines,
) -> Result<Answers, Refusal>
    requires { R.failed input.old < 2 ^ 64 - 1 }
    ensures answers { IfOk result
        (λ answers. ReadsWhole (R.remaining input.old) (R.remaining input.new)
        (λ text. AreSearchAnswers text lines answers.text.items answers.no
        answers.automata)) }
    ensures refused { IfErr result (or_memory (or_io (λ refusal. ReadsText (R.remaining input.old)
        (R.remaining input.new) (λ text. IsSearchStreamRefusal text lines refusal)))) }
    ensures counted { R.failed input.new ≡ R.failed input.old + failures_of result }
{
    let question = BySearch { lines };
    ask_stream::<BySearch, R>(alloc, input, &question)
}

/// Asks whether an automaton is empty, by a search.
#[derive(Drop)]
struct BySearch {
    lines: Lines,
}

impl ItemQuestion for BySearch {
    ghost answers = { λ question. AnswersItem (IsSearchAnswer question.lines) aborted_line };

    ghost refuses = { λ question. RefusesAutomaton IsSearchRefusal };

    fn append(
        &self,
        alloc: Global,
        _number: usize,
        item: &Item,
        out: &mut Vec<u8>,
    ) -> Result<bool, Refusal> {
        match item {
            Item::Automaton(automaton) => append_searched(alloc, automaton, self.lines, out),
            Item::Aborted => append_aborted(out),
        }
    }
}

/// Appends the answer for `automaton`, and returns whether it is empty.
fn append_searched(
    alloc: Global,
    automaton: &Automaton,
    lines: Lines,
    out: &mut Vec<u8>,
) -> Result<bool, Refusal>
    ensures answer { IfOk result (λ no.
        AppendsAnswer (IsSearchAnswer lines automaton.now) out.old.items out.new.items no) }
    ensures refused { IfErr result (or_memory (not_io (IsSearchRefusal automaton.now))) }
{
    let (exit, text) = search_automaton(alloc, automaton, lines, true)?;
    out.extend_from_slice(text.as_slice())?;
    Ok(exit == Exit::No)
}
