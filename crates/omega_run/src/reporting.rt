//! The lines on standard error for a refusal, and the status with which the program ends.
ghost use Rattle.std.specs.Prelude.{◌≡◌, ◌⊎◌, ◌++◌, ◌-◌, ◌^◌, ◌<◌, [], List, ℕ, Err, IfErr, IfOk, IsOkUnless};
ghost use Rattle.omega_text.specs.declared.refusal.Refusal.TheVariants.{Memory};
ghost use Rattle.omega_io.specs.Lines.{stream_lines};
ghost use Rattle.omega_io.specs.RefusalLine.{line_of};
ghost use Rattle.omega_io.specs.declared.refused.Which.TheVariants.{File, Input};
ghost use Rattle.omega_run.specs.Held.{lines_about};
ghost use Rattle.omega_run.specs.Files.{lines_of_file};
ghost use Rattle.omega_run.specs.Report.{IsRefusalReported, ReportsBy};
ghost use Rattle.omega_run.specs.FormulaJudge.{judged_name};
ghost use Rattle.omega_run.specs.TwoTexts.{name_of};
ghost use Rattle.omega_run.specs.World.{tells_of};

use omega_cli_command::{Command, FormulaJudge, TwoTexts};
use omega_io::{
    Exit, Failure, Output, Refusal, Refused, Unread, Which, exit_code, file_lines, lines_in,
    refusal_line, stream_lines, tell,
};
use std::alloc::Global;

/// Writes the lines of a refusal, and returns the status after the outcome. If `verbose` is set, the second line of
/// [Refusal::Io] says what the `failure` was. If nobody reads the output, there is no line.
pub(crate) fn report<E: Output>(
    alloc: Global,
    outcome: Result<Exit, Refusal>,
    verbose: bool,
    failure: Failure,
    errors: &mut E,
) -> u8
    requires { E.failed errors.old < 2 ^ 64 - 1 }
    ensures { ReportsBy (stream_lines verbose failure) outcome result
        (tells_of E.Output errors.old errors.new) }
{
    let Err(refusal) = outcome else {
        return exit_code(&outcome);
    };
    let lines = stream_lines(alloc, verbose, failure, refusal);
    report_lines(refusal, lines, b"", errors)
}

/// Writes the lines for the refusal of the file of this name, and returns the status. The second line has the name and
/// the system's reason, and is written only if the file could not be read and `verbose` is set.
pub(crate) fn report_file<E: Output>(
    alloc: Global,
    name: &str,
    unread: Unread,
    verbose: bool,
    errors: &mut E,
) -> u8
    requires { E.failed errors.old < 2 ^ 64 - 1 }
    ensures { ReportsBy (lines_of_file verbose name.now unread.reason) (Err unread.refusal) result
        (tells_of E.Output errors.old errors.new) }
{
    let Unread { refusal, reason } = unread;
    let lines = if verbose {
        file_lines(alloc, name, reason, refusal)
    } else {
        line_in(alloc, refusal)
    };
    report_lines(refusal, lines, b"", errors)
}

/// Returns the lines for a refusal of one of the texts of a command. If `verbose` is set, a line names the text that
/// the refusal is about, if it is one of two, or says what the `failure` was of [Refusal::Io].
pub(crate) fn lines_about(
    alloc: Global,
    command: &Command,
    verbose: bool,
    failure: Failure,
    refused: Refused,
) -> Result<Vec<u8>, Refusal>
    ensures lines { IfOk result (λ lines. lines.items
        ≡ lines_about verbose failure command.now refused.text refused.refusal) }
    ensures memory { IsOkUnless result Memory }
{
    let Some(which) = refused.text else {
        return stream_lines(alloc, verbose, failure, refused.refusal);
    };
    match command {
        Command::TwoTexts(two, _) if verbose => {
            lines_in(alloc, name_of(*two, which), refused.refusal)
        }
        Command::FormulaJudge(asked, _, _) if verbose => {
            lines_in(alloc, judged_name(*asked, which), refused.refusal)
        }
        _ => line_in(alloc, refused.refusal),
    }
}

/// Returns the line of a refusal.
pub(crate) fn line_in(alloc: Global, refusal: Refusal) -> Result<Vec<u8>, Refusal>
    ensures line { IfOk result (λ line. line.items ≡ line_of refusal) }
    ensures memory { IsOkUnless result Memory }
{
    let mut line = Vec::new(alloc);
    refusal_line(&refusal, &mut line)?;
    Ok(line)
}

/// Returns what one of the two texts is called.
fn name_of(command: TwoTexts, which: Which) -> &'static str
    ensures { result.now ≡ name_of command which }
{
    let (other, input) = names_of(command);
    match which {
        Which::File => other,
        Which::Input => input,
    }
}

/// Returns what the other text and that of the input are called.
fn names_of(command: TwoTexts) -> (&'static str, &'static str)
    ensures other { result.0.now ≡ name_of command File }
    ensures input { result.1.now ≡ name_of command Input }
{
    match command {
        TwoTexts::Verify { .. } | TwoTexts::VerifyNamed { .. } | TwoTexts::VerifyWinners { .. } => {
            ("game", "solution")
        }
        TwoTexts::VerifyLasso { .. } => ("automaton", "lasso"),
        TwoTexts::VerifyController { .. } => ("specification", "controller"),
        TwoTexts::VerifyCounterStrategy { .. } => ("specification", "counter-strategy"),
        TwoTexts::Accepts { .. } | TwoTexts::AcceptsSome { .. } => ("word", "automaton"),
        TwoTexts::Meet { .. }
        | TwoTexts::Join
        | TwoTexts::Contained { .. }
        | TwoTexts::ContainedStream { .. }
        | TwoTexts::Equal { .. } => ("other automaton", "automaton"),
        TwoTexts::DrawSolution { .. } => ("solution", "game"),
        TwoTexts::DrawWalk { .. } => ("walk", "game"),
    }
}

/// Returns what one of the two texts is called, that of a formula and that of what is judged for it.
fn judged_name(asked: FormulaJudge, which: Which) -> &'static str
    ensures { result.now ≡ judged_name asked which }
{
    match (which, asked) {
        (Which::File, _) => "formula",
        (Which::Input, FormulaJudge::Controller { .. }) => "controller",
        (Which::Input, FormulaJudge::CounterStrategy { .. }) => "counter-strategy",
    }
}

/// Writes the lines of a refusal and that of its `cause`, if there is memory for it, and returns its status. If there
/// was no memory for the lines, writes that of [Refusal::Memory].
pub(crate) fn report_lines<E: Output>(
    refusal: Refusal,
    lines: Result<Vec<u8>, Refusal>,
    cause: &[u8],
    errors: &mut E,
) -> u8
    requires tells { E.failed errors.old < 2 ^ 64 - 1 }
    requires memory { IsOkUnless lines Memory }
    ensures reported { IfOk lines (λ lines. (told : List ℕ) × ((told ≡ cause.now) ⊎ (told ≡ []))
        × IsRefusalReported refusal (lines.items ++ told) result (tells_of E.Output errors.old errors.new)) }
    ensures wanting { IfErr lines (λ _.
        IsRefusalReported Memory (line_of Memory) result (tells_of E.Output errors.old errors.new)) }
{
    match lines {
        Ok(lines) => {
            let mut told = lines;
            let _ = told.extend_from_slice(cause);
            tell(errors, told.as_slice());
            exit_code(&Err(refusal))
        }
        Err(wanting) => {
            tell(errors, b"omega: 60 Memory\n");
            exit_code(&Err(wanting))
        }
    }
}
