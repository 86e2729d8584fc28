//! A program that makes one public call of the libraries on two texts, and writes what the call gives. Its words are
//! the group of the call, the call's name, and the texts. If the first text is `-`, it is the standard input instead.
//! The status is 0, or the number of the refusal, whose line goes to standard error unless memory is refused. It is 61
//! also if a call left something changed after a refused request, or if there is no such group. `checks/calls.py`
//! refuses its requests for memory, and compares what it writes with what is known.
#![tactic(auto)]

mod building;
mod choices;
mod ends;
mod expressions;
mod games;
mod kinds;
mod lassos;
mod lists;
mod quiet;
mod raw;
mod solutions;
mod solving;
mod streams;
mod tokens;

use omega_io::{FromRead, ToWrite, read_all, refusal_line, tell, write_text};
use omega_text::Refusal;
use std::alloc::Global;
use std::io;
use std::process::ExitCode;

fn main(rt: HostRuntime) -> ExitCode {
    let mut output = ToWrite::new(rt.stdout());
    match answer(&rt) {
        Ok(text) => match write_text(&mut output, text.as_slice()) {
            Ok(()) => ExitCode::SUCCESS,
            Err(refusal) => status_of(refusal),
        },
        Err(refusal) => {
            if refusal != Refusal::Memory {
                tell_refusal(&rt, refusal);
            }
            status_of(refusal)
        }
    }
}

/// Writes the line of a refusal to standard error, if there is memory for it.
fn tell_refusal(rt: &HostRuntime, refusal: Refusal) {
    let mut line = Vec::new(rt.alloc());
    if refusal_line(&refusal, &mut line).is_ok() {
        tell(&mut ToWrite::new(rt.stderr()), line.as_slice());
    }
}

fn status_of(refusal: Refusal) -> ExitCode {
    ExitCode::from(u8::try_from(refusal.number()).unwrap_or(255))
}

/// Returns what the words request.
fn answer(rt: &HostRuntime) -> Result<Vec<u8>, Refusal> {
    match words_of(rt) {
        Ok(words) => output_of(rt, words.as_slice()),
        Err(error) if error.kind() == io::ErrorKind::OutOfMemory => Err(Refusal::Memory),
        Err(_) => Err(Refusal::Io),
    }
}

fn words_of(rt: &HostRuntime) -> io::Result<Vec<String>> {
    let words = std::env::args(rt)?.collect(rt.alloc())?;
    Ok(words)
}

fn output_of(rt: &HostRuntime, words: &[String]) -> Result<Vec<u8>, Refusal> {
    if words.len() < 5 {
        return Err(Refusal::Io);
    }
    let (group, call) = (words[1].as_str(), words[2].as_str());
    let (text, other) = (words[3].as_bytes(), words[4].as_bytes());
    if words[3].as_str() == "-" {
        called_on_input(rt, group, call, other)
    } else {
        answer_call(rt.alloc(), group, call, text, other)
    }
}

fn called_on_input(
    rt: &HostRuntime,
    group: &str,
    call: &str,
    other: &[u8],
) -> Result<Vec<u8>, Refusal> {
    match read_all(rt.alloc(), &mut FromRead::new(rt.stdin())) {
        Ok(input) => answer_call(rt.alloc(), group, call, input.as_slice(), other),
        Err(refusal) => Err(refusal),
    }
}

/// Returns what a call of a group gives of two texts.
fn answer_call(
    alloc: Global,
    group: &str,
    call: &str,
    text: &[u8],
    other: &[u8],
) -> Result<Vec<u8>, Refusal> {
    match group {
        "tokens" => tokens::answer_call(alloc, call, text, other),
        "expressions" => expressions::answer_call(alloc, call, text, other),
        "ends" => ends::answer_call(alloc, call, text),
        "raw" => raw::edges_written(alloc),
        "streams" => streams::answer_call(alloc, call, text),
        "building" => building::of_two(alloc),
        "quiet" => quiet::answer_call(alloc, call, text, other),
        "lassos" => lassos::read_and_written(alloc, call, text),
        "games" | "solutions" | "solving" => games::answer_call(alloc, group, call, text, other),
        _ => Err(Refusal::Io),
    }
}
