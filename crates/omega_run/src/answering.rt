ghost use Rattle.std.specs.Prelude.{◌≡◌, ◌+◌, ◌≤◌, None, length};
ghost use Rattle.omega_text.specs.Limits.{most_text};
ghost use Rattle.omega_solve.specs.Limits.{most_lifts};
ghost use Rattle.omega_run.specs.Answers.{IsAnswer, both_texts};
ghost use Rattle.omega_run.specs.Progress.{IsReported};
ghost use Rattle.omega_run.specs.Results.{of_input, with_bytes};
ghost use Rattle.omega_run.specs.Searching.{AreTurnsFor};

use crate::formulas::reply_to_formulas;
use crate::held_text::HeldText;
use crate::one_text::answer_one_text;
use crate::stream::answer_stream;
use crate::synthesis::{answer_formula_judge, answer_synthesis};
use crate::texts::Texts;
use crate::two_texts::answer_two_texts;
use omega_answers_game::Searching;
use omega_cli_command::Command;
use omega_io::{Exit, Refusal, Refused, Which};
use omega_solve::budget::Reporter;
use std::alloc::Global;

/// Returns what a command makes of its texts, with how it ends; or why they are refused, and which of them that is
/// about. Each run of a solver makes at most `budget` lifts. Those of a command of one text are reported to the
/// observer. If a game is searched, `searching` says how, with the turns of the searchers.
pub(crate) fn answer<L, T: Reporter<L>>(
    alloc: Global,
    command: &Command,
    texts: Texts<'_>,
    budget: u64,
    searching: &mut Searching,
    reporter: &T,
    observer: &mut L,
) -> Result<(Exit, Vec<u8>), Refused>
    requires budget { budget ≤ most_lifts }
    requires turns { searching.old.turns ≡ None }
    requires limit { length texts.input.now ≤ most_text + 1 }
    ensures answer { IsAnswer command.now budget
        (both_texts texts.entry.other.now texts.entry.input.now) (with_bytes (λ made. made.items) result) }
    ensures turns { AreTurnsFor command.now (with_bytes (λ made. made.items) result) searching.new }
    ensures reported { IsReported (T.tells reporter.now) (T.pace reporter.now) command.now budget
        (both_texts texts.entry.other.now texts.entry.input.now) (with_bytes (λ made. made.items) result)
        observer.old observer.new }
{
    match command {
        Command::OneText(one) => {
            let input = texts.input;
            of_input(answer_one_text(alloc, *one, input, budget, searching, reporter, observer))
        }
        Command::Stream(stream) => {
            of_input(answer_stream(alloc, *stream, &mut HeldText::new(texts.input), budget))
        }
        Command::TwoTexts(two, _) => answer_two_texts(alloc, *two, texts),
        Command::Formulas(asked, formulas) => {
            let input = texts.input;
            reply_to_formulas(alloc, *asked, formulas.as_slice(), input)
        }
        Command::Synthesis(asked, partition) => {
            of_input(answer_synthesis(alloc, *asked, partition, texts.input))
        }
        Command::FormulaJudge(asked, _, partition) => {
            answer_formula_judge(alloc, *asked, partition, texts)
        }
    }
}

/// Returns an answer to the text of the input, or its refusal, which is about that text.
fn of_input<T>(answer: Result<T, Refusal>) -> Result<T, Refused>
    ensures { result ≡ of_input answer }
{
    match answer {
        Ok(made) => Ok(made),
        Err(refusal) => Err(Refused::of(Which::Input, refusal)),
    }
}
