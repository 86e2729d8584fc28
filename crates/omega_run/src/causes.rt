//! What is to be mended in a refused text: the cause of its refusal, in one line.
ghost use Rattle.std.specs.Char.{is_ascii_whitespace};
ghost use Rattle.std.specs.List.{list_all};
ghost use Rattle.std.specs.Prelude.{◌≡◌, ◌⊎◌, [], IfOk};
ghost use Rattle.omega_run.specs.Answers.{both_texts};
ghost use Rattle.omega_run.specs.Causes.{IsCause, IsCauseBeside, IsCauseTold, formless_line};
ghost use Rattle.omega_run.specs.Causes.{is_formless, kind_of, line_at, text_beside, text_of};

use crate::text_kind::{TextKind, kind_of};
use crate::texts::Held;
use omega_answers_game::judged_game;
use omega_hoa_diagnostics::{automaton_cause, choice_cause, item_cause};
use omega_io::{Refusal, Refused, Which};
use omega_pg_diagnostics::{game_cause, place_line, solution_cause};
use omega_text::{GameFault, TaskFault, TextFault};
use std::alloc::Global;

/// Returns the cause of a refusal, or no bytes if there is no line to write or no memory for it, or `verbose` is not
/// set. If `by_text` is set, the text of the input was to tell its format.
pub(crate) fn cause_about(
    alloc: Global,
    held: Held<'_>,
    by_text: bool,
    verbose: bool,
    refused: Refused,
) -> Vec<u8>
    ensures { IsCauseTold verbose by_text held.entry.command.now
        (both_texts held.entry.written.other.now held.entry.written.input.now)
        (both_texts held.entry.read.other.now held.entry.read.input.now)
        refused.text refused.refusal result.items
        ⊎ (result.items ≡ []) }
{
    if !verbose {
        return Vec::new(alloc);
    }
    let Some(which) = refused.text else {
        return Vec::new(alloc);
    };
    let cause = if is_formless(by_text, held.written.input, refused.refusal) {
        formless_line(alloc)
    } else {
        cause_in_text(alloc, held, which, refused.refusal)
    };
    match cause {
        Ok(line) => line,
        Err(_) => Vec::new(alloc),
    }
}

/// Whether a text that is to tell its format, if `by_text` is set, tells none: there is nothing but white space in it.
fn is_formless(by_text: bool, text: &[u8], refusal: Refusal) -> bool
    ensures { result ≡ is_formless by_text text.now refusal }
{
    match refusal {
        Refusal::Text(TextFault::Syntax { .. }) if by_text => is_blank(text),
        _ => false,
    }
}

/// Whether a text has nothing but white space.
fn is_blank(text: &[u8]) -> bool
    ensures { result ≡ list_all is_ascii_whitespace text.now }
{
    text.iter().all(|byte| byte.is_ascii_whitespace())
}

/// Returns the line that says that a text tells no format.
fn formless_line(alloc: Global) -> Result<Vec<u8>, Refusal>
    ensures { IfOk result (λ line. line.items ≡ formless_line) }
{
    Ok(Vec::from_slice(
        alloc,
        b"omega: an empty text is of no format; --format says of which it is\n",
    )?)
}

/// Returns the cause of the refusal of this one of the texts of a command, or no bytes if there is no line to write.
fn cause_in_text(
    alloc: Global,
    held: Held<'_>,
    which: Which,
    refusal: Refusal,
) -> Result<Vec<u8>, Refusal>
    ensures { IfOk result (λ line. IsCause (kind_of held.entry.command.now which)
        (text_of (both_texts held.entry.written.other.now held.entry.written.input.now) which)
        (text_of (both_texts held.entry.read.other.now held.entry.read.input.now) which)
        (text_beside (both_texts held.entry.read.other.now held.entry.read.input.now) which)
        refusal line.items) }
{
    let kind = kind_of(held.command, which);
    let (written, text, beside) = match which {
        Which::File => (held.written.other, held.read.other, held.read.input),
        Which::Input => (held.written.input, held.read.input, held.read.other),
    };
    cause_in(alloc, kind, written, text, beside, refusal)
}

/// Returns the cause of the refusal of a text that is `written` so and read as `text`, beside another text, or no bytes
/// if there is no line to write.
pub(crate) fn cause_in(
    alloc: Global,
    kind: TextKind,
    written: &[u8],
    text: &[u8],
    beside: &[u8],
    refusal: Refusal,
) -> Result<Vec<u8>, Refusal>
    ensures { IfOk result (λ line. IsCause kind written.now text.now beside.now refusal line.items) }
{
    match refusal {
        Refusal::Text(_) => line_at(alloc, written, refusal.at()),
        Refusal::Game(GameFault::TooManyNodes | GameFault::TooManyEdges) => Ok(Vec::new(alloc)),
        Refusal::Game(_) => match kind {
            TextKind::Game => game_cause(alloc, text),
            _ => Ok(Vec::new(alloc)),
        },
        Refusal::Automaton(_) => match kind {
            TextKind::Automata => automaton_cause(alloc, text),
            _ => Ok(Vec::new(alloc)),
        },
        Refusal::Task(TaskFault::BadSolution) => match kind {
            TextKind::Solution { from } => cause_beside(alloc, beside, from, text),
            _ => Ok(Vec::new(alloc)),
        },
        Refusal::Task(TaskFault::NotDeterministic(_)) => match kind {
            TextKind::Automata => choice_cause(alloc, text),
            _ => Ok(Vec::new(alloc)),
        },
        Refusal::Task(TaskFault::Controllable) => match kind {
            TextKind::Automata => item_cause(alloc, text),
            _ => Ok(Vec::new(alloc)),
        },
        _ => Ok(Vec::new(alloc)),
    }
}

/// Returns the line that names a place of a text, or no bytes if there is no place.
fn line_at(alloc: Global, text: &[u8], place: Option<usize>) -> Result<Vec<u8>, Refusal>
    ensures { IfOk result (λ line. line.items ≡ line_at text.now place) }
{
    match place {
        Some(at) => place_line(alloc, text, at),
        None => Ok(Vec::new(alloc)),
    }
}

/// Returns the line that says why a text is no solution of the game that is judged, or no bytes if it does not say so.
fn cause_beside(
    alloc: Global,
    game_text: &[u8],
    from: Option<u32>,
    text: &[u8],
) -> Result<Vec<u8>, Refusal>
    ensures { IfOk result (λ line. IsCauseBeside game_text.now from text.now line.items) }
{
    let game = judged_game(alloc, game_text, from)?;
    solution_cause(alloc, &game, text)
}
