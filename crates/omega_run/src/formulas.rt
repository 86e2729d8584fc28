//! Formulas that are asked of a text in memory, one after the other.
ghost use Rattle.std.specs.Prelude.{◌≡◌, ◌⊎◌, ◌++◌, ◌-◌, ◌^◌, ◌<◌, ◌≤◌, [], Err, IfErr, IfOk};
ghost use Rattle.std.specs.Prelude.{IsOkUnless, OnOk, codes, decimal, length, nat_lt};
ghost use Rattle.omega_text.specs.declared.refusal.Refusal.TheVariants.{Memory};
ghost use Rattle.omega_cli_command.specs.declared.formulas.Formulas.TheVariants.{SatisfiesStream};
ghost use Rattle.omega_run.specs.FormulaRun.{AreAsked, AreWritten, IsFormulaCause, about_line, formula_lines};
ghost use Rattle.omega_run.specs.FormulaRun.{AreUnmentionedIn, input_name, name_line, name_lines};
ghost use Rattle.omega_run.specs.FormulaRun.{text_numbered};
ghost use Rattle.omega_run.specs.private.steps.Telling.{TellsOn};
ghost use Rattle.omega_run.specs.Formulas.{AnswersFormulas, IsUnnumbered, RefusesFormulas};
ghost use Rattle.omega_run.specs.Report.{ReportsCause};
ghost use Rattle.omega_run.specs.Streams.{counted_exit};
ghost use Rattle.omega_run.specs.World.{tells_of, written_to};

use crate::causes::cause_in;
use crate::progress::tell_on;
use crate::reporting::{line_in, report, report_lines};
use crate::stream::counted_exit;
use crate::text_kind::{TextKind, kind_asked};
use crate::writing::write_made;
use omega_answers_formula::{
    About, FormulaAnswers, RefusedFormulas, StreamAnswers, equal_each, satisfies_each,
    satisfies_stream_each, satisfies_word_each,
};
use omega_cli_command::{ByteString, Formulas};
use omega_io::{Exit, Output, Refusal, Refused, exit_code, failure_of};
use omega_text::write_number;
use std::alloc::Global;

/// Returns what a command makes of the texts of formulas and of that of the input, or why they are refused. If `names`
/// is set, returns too the names of each formula that the automaton does not have.
fn answer_formulas(
    alloc: Global,
    asked: Formulas,
    formulas: &[ByteString],
    input: &[u8],
    names: bool,
) -> Result<FormulaAnswers, RefusedFormulas>
    ensures answered { IfOk result
        (λ made. AnswersFormulas asked formulas.now input.now made.exit made.text.items) }
    ensures unmentioned { IfOk result
        (λ made. AreUnmentionedIn asked names formulas.now input.now made.unmentioned.items) }
    ensures refused { IfErr result (RefusesFormulas asked formulas.now input.now) }
{
    match asked {
        Formulas::Equal { explain } => equal_each(alloc, formulas, input, explain, names),
        Formulas::Satisfies { explain } => satisfies_each(alloc, formulas, input, explain, names),
        Formulas::SatisfiesStream { explain, at_least } => {
            satisfies_counted(alloc, formulas, input, explain, at_least)
        }
        Formulas::SatisfiesWord { explain } => satisfies_word_each(alloc, formulas, input, explain),
    }
}

/// Returns what `satisfies` answers for a stream that is to have `at_least` so many automata, or why the texts are
/// refused.
fn satisfies_counted(
    alloc: Global,
    formulas: &[ByteString],
    input: &[u8],
    explain: bool,
    at_least: u32,
) -> Result<FormulaAnswers, RefusedFormulas>
    ensures answered { IfOk result (λ made. AnswersFormulas (SatisfiesStream explain at_least)
        formulas.now input.now made.exit made.text.items) }
    ensures unmentioned { IfOk result (λ made. made.unmentioned.items ≡ []) }
    ensures refused { IfErr result
        (RefusesFormulas (SatisfiesStream explain at_least) formulas.now input.now) }
{
    match satisfies_stream_each(alloc, formulas, input, explain) {
        Ok(made) => {
            let StreamAnswers { answers, automata } = made;
            Ok(counted_answers(answers, automata, at_least))
        }
        Err(refused) => Err(refused),
    }
}

/// Returns `answers` to so many `automata`, with how the command ends that asks for `at_least` so many.
fn counted_answers(answers: FormulaAnswers, automata: usize, at_least: u32) -> FormulaAnswers
    ensures exit { result.exit ≡ counted_exit at_least automata answers.exit }
    ensures text { result.text ≡ answers.text }
    ensures unmentioned { result.unmentioned ≡ answers.unmentioned }
{
    let FormulaAnswers {
        exit,
        text,
        unmentioned,
    } = answers;
    FormulaAnswers {
        exit: counted_exit(exit, automata, at_least),
        text,
        unmentioned,
    }
}

/// Returns the same with how the command ends, or the refusal without the number of the formula that it is about.
pub(crate) fn reply_to_formulas(
    alloc: Global,
    asked: Formulas,
    formulas: &[ByteString],
    input: &[u8],
) -> Result<(Exit, Vec<u8>), Refused>
    ensures answered { IfOk result
        (λ made. AnswersFormulas asked formulas.now input.now made.0 made.1.items) }
    ensures refused { IfErr result (IsUnnumbered (RefusesFormulas asked formulas.now input.now)) }
{
    match answer_formulas(alloc, asked, formulas, input, false) {
        Ok(made) => Ok((made.exit, made.text)),
        Err(refused) => Err(refused.unnumbered()),
    }
}

/// Asks formulas of the text of the input, writes the answers, or the lines of a refusal, and returns the status to end
/// with.
pub(crate) fn run_formulas<W: Output, E: Output>(
    alloc: Global,
    asked: Formulas,
    formulas: &[ByteString],
    verbose: bool,
    input: &[u8],
    output: &mut W,
    errors: &mut E,
) -> u8
    requires writes { W.failed output.old < 2 ^ 64 - 1 }
    requires tells { E.failed errors.old < 2 ^ 64 - 1 }
    ensures { AreAsked verbose asked formulas.now input.now result
        (tells_of E.Output errors.old errors.new)
        (written_to W.Output output.old) (written_to W.Output output.new) }
{
    match answer_formulas(alloc, asked, formulas, input, verbose) {
        Ok(made) => write_formula_answers(alloc, made, verbose, output, errors),
        Err(refused) => report_formulas(alloc, asked, formulas, verbose, input, refused, errors),
    }
}

/// Writes the answers to formulas, and then the lines on names that the automaton does not have, and returns the status
/// to end with. If a write of the answers fails, the lines of that are written in their place.
fn write_formula_answers<W: Output, E: Output>(
    alloc: Global,
    made: FormulaAnswers,
    verbose: bool,
    output: &mut W,
    errors: &mut E,
) -> u8
    requires writes { W.failed output.old < 2 ^ 64 - 1 }
    requires tells { E.failed errors.old < 2 ^ 64 - 1 }
    ensures { AreWritten verbose (made.exit, made.text.items) made.unmentioned.items result
        (tells_of E.Output errors.old errors.new)
        (written_to W.Output output.old) (written_to W.Output output.new) }
{
    let FormulaAnswers {
        exit,
        text,
        unmentioned,
    } = made;
    match write_made(Ok((exit, text)), output) {
        Ok(exit) => {
            tell_names(errors, unmentioned.as_slice());
            exit_code(&Ok(exit))
        }
        Err(refused) => {
            let failure = failure_of(None, output);
            report(alloc, Err(refused.refusal), verbose, failure, errors)
        }
    }
}

/// Writes a line for each of these names, which takes no memory. If a write fails, none follows it.
fn tell_names<E: Output>(errors: &mut E, names: &[ByteString])
    requires { E.failed errors.old < 2 ^ 64 - 1 }
    ensures { tells_of E.Output errors.old errors.new (name_lines names.now) }
{
    let sound = errors.failures();
    for name in names {
        tell_name(errors, sound, name);
    }
}

/// Writes that the automaton does not have this name, unless more than `sound` writes have failed.
fn tell_name<E: Output>(errors: &mut E, sound: u64, name: &ByteString)
    ensures { TellsOn sound (E.contents errors.old) (E.contents errors.new) (E.failed errors.old)
        (E.failed errors.new) (name_line name.now) }
{
    tell_on(errors, sound, b"omega: the automaton has no proposition \"");
    tell_on(errors, sound, name.as_slice());
    tell_on(errors, sound, b"\"\n");
}

/// Writes the lines of a refusal of formulas, with its cause, and returns the status to end with.
fn report_formulas<E: Output>(
    alloc: Global,
    asked: Formulas,
    formulas: &[ByteString],
    verbose: bool,
    input: &[u8],
    refused: RefusedFormulas,
    errors: &mut E,
) -> u8
    requires { E.failed errors.old < 2 ^ 64 - 1 }
    ensures { ReportsCause (formula_lines verbose asked (nat_lt 1 (length formulas.now)) refused.about)
        (IsFormulaCause verbose asked formulas.now input.now refused.about) (Err refused.refusal) result
        (tells_of E.Output errors.old errors.new) }
{
    let several = are_several(formulas);
    let lines = formula_lines(alloc, asked, several, verbose, refused);
    let cause = formula_cause(alloc, asked, formulas, verbose, input, refused);
    report_lines(refused.refusal, lines, cause.as_slice(), errors)
}

/// Whether there are two formulas or more.
fn are_several(formulas: &[ByteString]) -> bool
    ensures { result ≡ nat_lt 1 (length formulas.now) }
{
    formulas.len() > 1
}

/// Returns the lines for a refusal of formulas. If `verbose` is set, a line says what it is about, and if there are
/// `several`, which of them.
fn formula_lines(
    alloc: Global,
    asked: Formulas,
    several: bool,
    verbose: bool,
    refused: RefusedFormulas,
) -> Result<Vec<u8>, Refusal>
    ensures lines { IfOk result (λ lines. lines.items
        ≡ formula_lines verbose asked several refused.about refused.refusal) }
    ensures memory { IsOkUnless result Memory }
{
    let mut lines = line_in(alloc, refused.refusal)?;
    if verbose {
        append_about(asked, several, refused.about, &mut lines)?;
    }
    Ok(lines)
}

/// Appends the line that says what a refusal of formulas is about, if there is one.
fn append_about(
    asked: Formulas,
    several: bool,
    about: Option<About>,
    out: &mut Vec<u8>,
) -> Result<(), Refusal>
    ensures line { OnOk result (out.new.items ≡ out.old.items ++ about_line asked several about) }
    ensures memory { IsOkUnless result Memory }
{
    match about {
        None => Ok(()),
        Some(About::Input) => append_naming(b"omega: in the ", input_name(asked), out),
        Some(About::Formula(number)) => {
            if several {
                append_numbered(b"omega: in formula ", number, out)
            } else {
                append_naming(b"omega: in the ", "formula", out)
            }
        }
        Some(About::Question(number)) => {
            if several {
                append_numbered(b"omega: at formula ", number, out)
            } else {
                Ok(())
            }
        }
    }
}

/// Returns what the text of the input is called.
fn input_name(asked: Formulas) -> &'static str
    ensures { result.now ≡ input_name asked }
{
    match asked {
        Formulas::Equal { .. } | Formulas::Satisfies { .. } | Formulas::SatisfiesStream { .. } => {
            "automaton"
        }
        Formulas::SatisfiesWord { .. } => "word",
    }
}

/// Appends a line of `front` and `name`.
fn append_naming(front: &[u8], name: &str, out: &mut Vec<u8>) -> Result<(), Refusal>
    ensures line { OnOk result
        (out.new.items ≡ out.old.items ++ (front.now ++ (name.now ++ codes "\n"))) }
    ensures memory { IsOkUnless result Memory }
{
    out.extend_from_slice(front)?;
    out.extend_from_slice(name.as_bytes())?;
    out.extend_from_slice(b"\n")?;
    Ok(())
}

/// Appends a line of `front` and `number` in decimal.
fn append_numbered(front: &[u8], number: usize, out: &mut Vec<u8>) -> Result<(), Refusal>
    ensures line { OnOk result
        (out.new.items ≡ out.old.items ++ (front.now ++ (decimal number ++ codes "\n"))) }
    ensures memory { IsOkUnless result Memory }
{
    out.extend_from_slice(front)?;
    write_number(number as u128, out)?;
    out.extend_from_slice(b"\n")?;
    Ok(())
}

/// Returns the cause of a refusal of formulas, or no bytes if there is no line to write or no memory for it, or
/// `verbose` is not set.
fn formula_cause(
    alloc: Global,
    asked: Formulas,
    formulas: &[ByteString],
    verbose: bool,
    input: &[u8],
    refused: RefusedFormulas,
) -> Vec<u8>
    ensures { IsFormulaCause verbose asked formulas.now input.now refused.about refused.refusal result.items
        ⊎ (result.items ≡ []) }
{
    if !verbose {
        return Vec::new(alloc);
    }
    let made = match refused.about {
        Some(About::Input) => cause_in(
            alloc,
            kind_asked(asked),
            input,
            input,
            b"",
            refused.refusal,
        ),
        Some(About::Formula(number)) => {
            let text = text_numbered(formulas, number);
            cause_in(alloc, TextKind::Other, text, text, b"", refused.refusal)
        }
        Some(About::Question(_)) | None => return Vec::new(alloc),
    };
    match made {
        Ok(line) => line,
        Err(_) => Vec::new(alloc),
    }
}

/// Returns the text of the formula with this number, or no bytes if there is none. The first has the number 1.
fn text_numbered(formulas: &[ByteString], number: usize) -> &[u8]
    ensures { result.now ≡ text_numbered formulas.now number }
{
    match formulas.get(number.saturating_sub(1)) {
        Some(text) => text.as_slice(),
        None => b"",
    }
}
