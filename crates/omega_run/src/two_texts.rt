//! What each command makes of two texts.
ghost use Rattle.std.specs.Prelude.{◌+◌, ◌≤◌, IfOk, IfErr, length};
ghost use Rattle.omega_text.specs.Limits.{most_text};
ghost use Rattle.omega_cli_command.specs.declared.two_texts.TwoTexts.TheVariants.{ContainedStream, VerifyController};
ghost use Rattle.omega_run.specs.TwoTexts.{AnswersTwoTexts, RefusesTwoTexts};

use crate::held_text::HeldText;
use crate::stream::{counted_exit, exit_after};
use crate::texts::Texts;
use omega_aiger::begins_as_circuit;
use omega_answers_automaton::{join_texts, meet_texts, meet_trimmed_texts, verify_lasso};
use omega_answers_circuit::verify_circuit;
use omega_answers_game::{draw_solution_text, verify_solution, verify_winners};
use omega_answers_inclusion::{accepts_some_text, accepts_text, contained_texts, equal_texts};
use omega_answers_stream_questions::contained_stream;
use omega_answers_synth::{verify_controller, verify_counter_strategy};
use omega_answers_walk::{draw_walk_text, verify_with_names};
use omega_cli_command::TwoTexts;
use omega_io::{Exit, Refused};
use std::alloc::Global;

/// Returns what a command makes of two texts, with how it ends; or why they are refused, and which of them that is
/// about.
pub(crate) fn answer_two_texts(
    alloc: Global,
    command: TwoTexts,
    texts: Texts<'_>,
) -> Result<(Exit, Vec<u8>), Refused>
    requires { length texts.input.now ≤ most_text + 1 }
    ensures answered { IfOk result (λ made. AnswersTwoTexts command texts.entry.other.now
        texts.entry.input.now made.0 made.1.items) }
    ensures refused { IfErr result
        (RefusesTwoTexts command texts.entry.other.now texts.entry.input.now) }
{
    let Texts { other, input } = texts;
    match command {
        TwoTexts::Verify { from, explain } => verify_solution(alloc, other, from, input, explain),
        TwoTexts::VerifyNamed { from } => verify_with_names(alloc, other, from, input),
        TwoTexts::VerifyWinners { from, explain } => {
            verify_winners(alloc, other, from, input, explain)
        }
        TwoTexts::VerifyLasso { explain } => verify_lasso(alloc, other, input, explain),
        TwoTexts::VerifyController { explain } => verify_system(alloc, other, input, explain),
        TwoTexts::VerifyCounterStrategy { explain } => {
            verify_counter_strategy(alloc, other, input, explain)
        }
        TwoTexts::Accepts { explain } => accepts_text(alloc, other, input, explain),
        TwoTexts::AcceptsSome { explain } => accepts_some_text(alloc, other, input, explain),
        TwoTexts::Meet { trim: false } => Ok((Exit::Done, meet_texts(alloc, other, input)?)),
        TwoTexts::Meet { trim: true } => Ok((Exit::Done, meet_trimmed_texts(alloc, other, input)?)),
        TwoTexts::Join => Ok((Exit::Done, join_texts(alloc, other, input)?)),
        TwoTexts::Contained { explain } => contained_texts(alloc, other, input, explain),
        TwoTexts::ContainedStream { explain, at_least } => {
            contained_each(alloc, other, input, explain, at_least)
        }
        TwoTexts::Equal { explain } => equal_texts(alloc, other, input, explain),
        TwoTexts::DrawSolution {
            from,
            depth,
            legend,
        } => {
            let made = draw_solution_text(alloc, input, other, from, depth, legend)?;
            Ok((Exit::Done, made))
        }
        TwoTexts::DrawWalk {
            from,
            depth,
            legend,
        } => {
            let made = draw_walk_text(alloc, input, other, from, depth, legend)?;
            Ok((Exit::Done, made))
        }
    }
}

/// Returns whether the circuit of `input`, if that begins as one, or else its automaton is a controller for the
/// specification of `other`, with how the command ends; or why it is refused, and which of the two texts that is about.
fn verify_system(
    alloc: Global,
    other: &[u8],
    input: &[u8],
    explain: bool,
) -> Result<(Exit, Vec<u8>), Refused>
    ensures answered { IfOk result (λ made.
        AnswersTwoTexts (VerifyController explain) other.now input.now made.0 made.1.items) }
    ensures refused { IfErr result (RefusesTwoTexts (VerifyController explain) other.now input.now) }
{
    if begins_as_circuit(input) {
        verify_circuit(alloc, other, input, explain)
    } else {
        verify_controller(alloc, other, input, explain)
    }
}

/// Returns for each automaton of the stream in `input` whether that of `other` accepts each of its words, with how the
/// command ends that asks for `at_least` so many; or why it is refused, and which of the two texts that is about.
fn contained_each(
    alloc: Global,
    other: &[u8],
    input: &[u8],
    explain: bool,
    at_least: u32,
) -> Result<(Exit, Vec<u8>), Refused>
    requires { length input.now ≤ most_text + 1 }
    ensures answered { IfOk result (λ made.
        AnswersTwoTexts (ContainedStream explain at_least) other.now input.now made.0 made.1.items) }
    ensures refused { IfErr result
        (RefusesTwoTexts (ContainedStream explain at_least) other.now input.now) }
{
    let answers = contained_stream(alloc, &mut HeldText::new(input), other, explain)?;
    let exit = exit_after(true, answers.no);
    Ok((counted_exit(exit, answers.automata, at_least), answers.text))
}
