//! The program as a function: a command line is obeyed over texts in memory.
ghost use Rattle.std.specs.Prelude.{◌≡◌, ◌≢◌, ◌-◌, ◌^◌, ◌<◌, IfOk, IfSome, IsOkUnless};
ghost use Rattle.omega_io.specs.Exit.{refusal_status};
ghost use Rattle.omega_run.specs.World.{streams_of};
ghost use Rattle.omega_text.specs.declared.refusal.Refusal.TheVariants.{Io, Memory};
ghost use Rattle.omega_cli_command.specs.Request.{IsRunnable};
ghost use Rattle.omega.specs.Running.{IsRequestOfWords, IsObeyedOver, IsProgramRun, IsRunOutcome};

mod files;
mod memory_output;
pub(crate) mod words;

use files::OneFile;
use memory_output::MemoryOutput;
use omega_arrays::copy_into;
use omega_cli::read_words;
use omega_run::{HeldText, Input, InputFiles, Output, Refusal, Request, exit_code, obey};
use std::alloc::Global;
use words::words_in;

/// The line of a run that has no memory for what it writes.
const WITHOUT_MEMORY: &[u8] = b"omega: 60 Memory\n";

/// What a run left.
#[repr(C)]
#[derive(Clone, Copy, Debug, PartialEq, Eq)]
pub struct Ran {
    /// The exit status.
    pub status: u32,
    /// How many bytes were written to standard output.
    pub output: u64,
    /// How many bytes were written to standard error.
    pub errors: u64,
}

/// Does what the program does with a command line, whose words after the program's name are each ended by a NUL. The
/// rest after the last NUL is not read. `input` is the standard input, and each file that a word names, the operand
/// too, has the text `file`. The output and the errors are copied as far as there is room for them, and their whole
/// lengths are given. No read and no write fails, and [Refusal::Io] does not come: if there is no memory for what the
/// program writes, the status and the line of [Refusal::Memory] are given, and no output.
#[unsafe(no_mangle)]
pub extern "C" fn omega_run(
    alloc: Global,
    words: &[u8],
    input: &[u8],
    file: &[u8],
    output: &mut [u8],
    errors: &mut [u8],
) -> Ran
    ensures outcome { IsRunOutcome words.now input.now file.now result output.old output.new
        errors.old errors.new }
    ensures unbroken { result.status ≢ refusal_status Io }
{
    match left_by(alloc, words, input, file) {
        Some(left) => {
            copy_into(left.output.as_slice(), output);
            copy_into(left.errors.as_slice(), errors);
            Ran {
                status: left.status as u32,
                output: left.output.len() as u64,
                errors: left.errors.len() as u64,
            }
        }
        None => {
            copy_into(WITHOUT_MEMORY, errors);
            Ran {
                status: exit_code(&Err(Refusal::Memory)) as u32,
                output: 0,
                errors: WITHOUT_MEMORY.len() as u64,
            }
        }
    }
}

/// What a run leaves: its status, and what it wrote.
#[derive(Drop)]
struct Left {
    status: u8,
    output: Vec<u8>,
    errors: Vec<u8>,
}

/// Obeys the words over the input, with the text `file` for each file. Returns none if a write failed: there was no
/// memory for what the program writes.
fn left_by(alloc: Global, words: &[u8], input: &[u8], file: &[u8]) -> Option<Left>
    ensures run { IfSome result (λ left. IsProgramRun words.now input.now file.now left.status
        left.output.items left.errors.items) }
    ensures unbroken { IfSome result (λ left. left.status ≢ refusal_status Io) }
{
    let asked = asked_of(alloc, words);
    let files = OneFile::new(file);
    let mut reading = HeldText::new(input);
    let mut writing = MemoryOutput::new(alloc);
    let mut telling = MemoryOutput::new(alloc);
    let status = status_of(
        alloc,
        asked,
        &files,
        &mut reading,
        &mut writing,
        &mut telling,
    );
    // The status says that a write to the output failed, and not that one to the errors did.
    let is_broken = status == exit_code(&Err(Refusal::Io));
    if is_broken || writing.failures() > 0 || telling.failures() > 0 {
        return None;
    }
    Some(Left {
        status,
        output: writing.into_bytes(),
        errors: telling.into_bytes(),
    })
}

/// Obeys a command line over texts in memory, and returns its status. The contract leaves out the rest of the input.
fn status_of<'f, 'i>(
    alloc: Global,
    asked: Result<Request, Refusal>,
    files: &OneFile<'f>,
    input: &mut HeldText<'i>,
    output: &mut MemoryOutput,
    errors: &mut MemoryOutput,
) -> u8
    requires runnable { IfOk asked IsRunnable }
    requires writes { ⟦<MemoryOutput as Output>⟧.failed output.old < 2 ^ 64 - 1 }
    requires tells { ⟦<MemoryOutput as Output>⟧.failed errors.old < 2 ^ 64 - 1 }
    ensures { IsObeyedOver (⟦<OneFile<'f> as InputFiles>⟧.reads files.now)
        (⟦<OneFile<'f> as InputFiles>⟧.refuses files.now) asked result
        (⟦<MemoryOutput as Output>⟧.contents errors.old) (⟦<MemoryOutput as Output>⟧.contents errors.new)
        (⟦<MemoryOutput as Output>⟧.failed errors.old) (⟦<MemoryOutput as Output>⟧.failed errors.new)
        (streams_of ⟦<HeldText<'i> as Input>⟧ ⟦<MemoryOutput as Output>⟧ input.old output.old)
        (⟦<MemoryOutput as Output>⟧.contents output.new) (⟦<MemoryOutput as Output>⟧.failed output.new) }
{
    obey(alloc, asked, files, input, output, errors)
}

/// Returns what the words request.
fn asked_of(alloc: Global, words: &[u8]) -> Result<Request, Refusal>
    ensures asked { IfOk result (IsRequestOfWords words.now) }
    ensures runnable { IfOk result IsRunnable }
    ensures memory { IsOkUnless result Memory }
{
    match words_in(alloc, words)? {
        Some(words) => read_words(alloc, words.as_slice()),
        None => {
            let fault =
                "error: the command line is not UTF-8\n\nFor more information, try '--help'.\n";
            Ok(Request::Fault(String::from_str(alloc, fault)?))
        }
    }
}
