//! What each command makes of a stream of automata.
ghost use Rattle.std.specs.Prelude.{◌≡◌, ◌+◌, ◌-◌, ◌^◌, ◌<◌, ◌≤◌, ◌&&◌, IfOk, IfErr};
ghost use Rattle.omega_answers_stream_questions.specs.Items.{exit_for};
ghost use Rattle.omega_io.specs.Failures.{failures_of};
ghost use Rattle.omega_solve.specs.Limits.{most_lifts};
ghost use Rattle.omega_run.specs.Pieces.{IsStreamRefusal, Responds};
ghost use Rattle.omega_run.specs.Streams.{counted_exit};

use omega_answers_empty::Lines;
use omega_answers_stream::{canon_stream, check_stream, show_stream, show_stream_json};
use omega_answers_stream_questions::{
    complement_stream, empty_stream_by_lifting, empty_stream_by_search, trim_stream,
};
use omega_cli_command::Stream;
use omega_io::{Exit, Input, Refusal};
use std::alloc::Global;

/// Reads a stream of automata piece by piece, to its end if it is answered, and returns what a command makes of it,
/// with how it ends, or the refusal. By lifting, at most `budget` lifts are made for each automaton.
pub(crate) fn answer_stream<R: Input>(
    alloc: Global,
    stream: Stream,
    input: &mut R,
    budget: u64,
) -> Result<(Exit, Vec<u8>), Refusal>
    requires budget { budget ≤ most_lifts }
    requires reads { R.failed input.old < 2 ^ 64 - 1 }
    ensures answered { IfOk result (λ made. Responds stream budget (R.remaining input.old)
        (R.remaining input.new) made.0 made.1.items) }
    ensures refused { IfErr result
        (IsStreamRefusal stream budget (R.remaining input.old) (R.remaining input.new)) }
    ensures counted { R.failed input.new ≡ R.failed input.old + failures_of result }
{
    match stream {
        Stream::Show => Ok((Exit::Done, show_stream(alloc, input)?)),
        Stream::ShowJson => Ok((Exit::Done, show_stream_json(alloc, input)?)),
        Stream::Check { at_least } => {
            let (text, automata) = check_stream(alloc, input)?;
            Ok((counted_exit(Exit::Done, automata, at_least), text))
        }
        Stream::Canon => Ok((Exit::Done, canon_stream(alloc, input)?)),
        Stream::Empty {
            word,
            names,
            status,
            at_least,
        } => {
            let lines = Lines { word, run: names };
            let answers = empty_stream_by_lifting(alloc, input, lines, budget)?;
            let exit = exit_after(status, answers.no);
            Ok((counted_exit(exit, answers.automata, at_least), answers.text))
        }
        Stream::EmptySearch {
            word,
            names,
            status,
            at_least,
        } => {
            let lines = Lines { word, run: names };
            let answers = empty_stream_by_search(alloc, input, lines)?;
            let exit = exit_after(status, answers.no);
            Ok((counted_exit(exit, answers.automata, at_least), answers.text))
        }
        Stream::Complement { at_least } => {
            let answers = complement_stream(alloc, input)?;
            Ok((
                counted_exit(Exit::Done, answers.automata, at_least),
                answers.text,
            ))
        }
        Stream::Trim { at_least } => {
            let answers = trim_stream(alloc, input)?;
            Ok((
                counted_exit(Exit::Done, answers.automata, at_least),
                answers.text,
            ))
        }
    }
}

/// Returns how a command ends that would end with `exit`, after so many `automata`: as [Exit::No] if there are fewer
/// than `at_least`.
pub(crate) fn counted_exit(exit: Exit, automata: usize, at_least: u32) -> Exit
    ensures { result ≡ counted_exit at_least automata exit }
{
    if automata < at_least as usize {
        Exit::No
    } else {
        exit
    }
}

/// Returns how a command ends that is to tell whether one of its answers is `no`.
pub(crate) fn exit_after(tells: bool, no: bool) -> Exit
    ensures { result ≡ exit_for (tells && no) }
{
    if tells && no { Exit::No } else { Exit::Done }
}
