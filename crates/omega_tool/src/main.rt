//! The program `omega`: what its command line asks for, done over the machine's files and streams.
#![tactic(auto)]

ghost use Rattle.std.specs.Prelude.{IfOk, IsOkUnless};
ghost use Rattle.omega_text.specs.declared.refusal.Refusal.TheVariants.{Memory};
ghost use Rattle.omega_cli_command.specs.Request.{IsFault, IsRunnable};

use omega_cli::read_words;
use omega_run::{FromRead, HostFiles, Refusal, Request, ToWrite, obey};
use std::alloc::Global;
use std::io;
use std::process::ExitCode;

fn main(rt: HostRuntime) -> ExitCode {
    let asked = asked_of(&rt);
    let files = HostFiles::new(&rt);
    let mut input = FromRead::new(rt.stdin());
    let mut output = ToWrite::new(rt.stdout());
    let mut errors = ToWrite::new(rt.stderr());
    ExitCode::from(obey(
        rt.alloc(),
        asked,
        &files,
        &mut input,
        &mut output,
        &mut errors,
    ))
}

/// Returns what the words of the command line request.
fn asked_of(rt: &HostRuntime) -> Result<Request, Refusal>
    ensures { IfOk result IsRunnable }
{
    match words_of(rt) {
        Ok(words) => read_words(rt.alloc(), words.as_slice()),
        Err(error) => no_text(rt.alloc(), error.kind()),
    }
}

/// Returns the fault for words that are no text, unless there was no memory for them.
fn no_text(alloc: Global, kind: io::ErrorKind) -> Result<Request, Refusal>
    ensures fault { IfOk result IsFault }
    ensures memory { IsOkUnless result Memory }
{
    if kind == io::ErrorKind::OutOfMemory {
        return Err(Refusal::Memory);
    }
    let fault = "error: the command line is not UTF-8\n\nFor more information, try '--help'.\n";
    Ok(Request::Fault(String::from_str(alloc, fault)?))
}

fn words_of(rt: &HostRuntime) -> io::Result<Vec<String>> {
    let words = std::env::args(rt)?.collect(rt.alloc())?;
    Ok(words)
}
