//! The files of a task.
ghost use Rattle.std.specs.Prelude.{◌≡◌, IfErr, IfOk, option_map};
ghost use Rattle.omega_run.specs.Files.{ReadsFile, ReadsFiles, RefusesFile, RefusesFiles};
ghost use Rattle.omega_run.specs.Files.{operand_file, operand_text, other_file, other_text};

use omega_cli_command::{Command, Other, Source, Task};
use omega_io::{InputFiles, Unread};
use std::alloc::Global;

/// The texts of the files that a task names.
#[derive(Drop)]
pub(crate) struct FileTexts {
    /// That of the operand, if it is a file.
    pub(crate) operand: Option<Vec<u8>>,
    /// The other text, if a file has it.
    pub(crate) other: Option<Vec<u8>>,
}

/// A file that is not read.
#[derive(Drop)]
pub(crate) struct UnreadFile<'a> {
    pub(crate) name: &'a str,
    pub(crate) unread: Unread,
}

/// Reads the files that a task names, that of the operand first. Refused as the first that is not read.
pub(crate) fn read_files<'a, F: InputFiles>(
    alloc: Global,
    task: &'a Task,
    files: &F,
) -> Result<FileTexts, UnreadFile<'a>>
    ensures read { IfOk result (λ read. ReadsFiles (F.reads files.now) task.now
        (option_map (λ text. text.items) read.operand) (option_map (λ text. text.items) read.other)) }
    ensures refused { IfErr result (λ refused. RefusesFiles (F.reads files.now)
        (F.refuses files.now) task.now refused.name.now refused.unread) }
{
    let operand = read_operand(alloc, &task.source, files)?;
    let other = read_other(alloc, &task.command, files)?;
    Ok(FileTexts { operand, other })
}

/// Reads the file of the operand, if it is one.
fn read_operand<'a, F: InputFiles>(
    alloc: Global,
    source: &'a Source,
    files: &F,
) -> Result<Option<Vec<u8>>, UnreadFile<'a>>
    ensures read { IfOk result (λ text. ReadsFile (F.reads files.now) (operand_file source.now)
        (option_map (λ text. text.items) text)) }
    ensures refused { IfErr result (λ refused. RefusesFile (F.refuses files.now)
        (operand_file source.now) refused.name.now refused.unread) }
{
    match source {
        Source::File(name) => Ok(Some(read_named(alloc, name.as_str(), files)?)),
        Source::Input | Source::Given(_) => Ok(None),
    }
}

/// Reads the file that has the other text of a command, if one has it.
fn read_other<'a, F: InputFiles>(
    alloc: Global,
    command: &'a Command,
    files: &F,
) -> Result<Option<Vec<u8>>, UnreadFile<'a>>
    ensures read { IfOk result (λ text. ReadsFile (F.reads files.now) (other_file command.now)
        (option_map (λ text. text.items) text)) }
    ensures refused { IfErr result (λ refused. RefusesFile (F.refuses files.now)
        (other_file command.now) refused.name.now refused.unread) }
{
    match command {
        Command::TwoTexts(_, Other::File(name)) | Command::FormulaJudge(_, Other::File(name), _) =>
            { Ok(Some(read_named(alloc, name.as_str(), files)?)) }
        _ => Ok(None),
    }
}

/// Reads the file of this name.
fn read_named<'a, F: InputFiles>(
    alloc: Global,
    name: &'a str,
    files: &F,
) -> Result<Vec<u8>, UnreadFile<'a>>
    ensures read { IfOk result (λ text. F.reads files.now name.now text.items) }
    ensures refused { IfErr result (λ refused. (refused.name.now ≡ name.now)
        × F.refuses files.now name.now refused.unread) }
{
    match files.read_file(alloc, name) {
        Ok(text) => Ok(text),
        Err(unread) => Err(UnreadFile { name, unread }),
    }
}

/// Returns the text of the input if it is not that of standard input: the one that the command line has, or `text`,
/// which is that of a file.
pub(crate) fn operand_text<'a>(source: &'a Source, text: &'a Option<Vec<u8>>) -> Option<&'a [u8]>
    ensures { option_map (λ text. text.now) result
        ≡ operand_text source.now (option_map (λ text. text.items) text.now) }
{
    match (source, text) {
        (Source::Given(given), _) => Some(given.as_bytes()),
        (_, Some(text)) => Some(text.as_slice()),
        _ => None,
    }
}

/// Returns the other text of `command`, which is `text` if a file has it.
pub(crate) fn other_text<'a>(command: &'a Command, text: &'a Option<Vec<u8>>) -> &'a [u8]
    ensures { result.now ≡ other_text command.now (option_map (λ text. text.items) text.now) }
{
    match (command, text) {
        (Command::TwoTexts(_, Other::Given(given)), _) => given.as_bytes(),
        (Command::FormulaJudge(_, Other::Given(given), _), _) => given.as_bytes(),
        (_, Some(text)) => text.as_slice(),
        _ => b"",
    }
}
