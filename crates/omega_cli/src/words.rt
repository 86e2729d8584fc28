ghost use Rattle.std.specs.Prelude.{◌≡◌, ◌≢◌, IfOk, IsOkUnless, map, string_bytes};
ghost use Rattle.clap.specs.Words.{found_of, kind_of, rows_of, subcommand_rows_of};
ghost use Rattle.clap.specs.declared.error.kind.ErrorKind.TheVariants.{OutOfMemory};
ghost use Rattle.omega_text.specs.declared.refusal.Refusal.TheVariants.{Memory};
ghost use Rattle.omega_cli.specs.Found.{IsFaultOf, IsPrinted, IsRequestFor, IsRequestFound};
ghost use Rattle.omega_cli.specs.Words.{IsRequested, IsRequestedSo, is_flag_first, is_name};
ghost use Rattle.omega_cli.specs.Words.{is_verbose, meant_words};
ghost use Rattle.omega_cli_command.specs.Request.{IsFault, IsRunnable};

use crate::found::options_in;
use crate::{fault_text, matches_of};
use clap::error::ErrorKind;
use clap::{ArgMatches, Error};
use omega_cli_command::{Mistake, Request, Subcommand, request_for, subcommand_named};
use omega_text::Refusal;
use std::alloc::{AllocError, Global};

/// Returns what `words` request. The first word is the program's name. The flag `--verbose` may stand before the name
/// of the subcommand.
pub fn read_words<'a>(alloc: Global, words: &'a [String]) -> Result<Request, Refusal>
    ensures asked { IfOk result (IsRequested (map string_bytes words.now)) }
    ensures runnable { IfOk result IsRunnable }
    ensures memory { IsOkUnless result Memory }
{
    match meant_words(alloc, words) {
        Ok(meant) => request_in(alloc, meant.as_slice()),
        Err(_) => Err(Refusal::Memory),
    }
}

/// Returns what `words` request as they stand.
fn request_in(alloc: Global, words: &[&str]) -> Result<Request, Refusal>
    ensures asked { IfOk result (IsRequestedSo (map (λ word. word.now) words.now)) }
    ensures runnable { IfOk result IsRunnable }
    ensures memory { IsOkUnless result Memory }
{
    match matches_of(alloc, words) {
        Ok(found) => request_of_words(alloc, &found),
        Err(error) => request_of_error(alloc, &error),
    }
}

/// Returns what `words` mean: a flag for more on a refusal that stands before the name of the subcommand belongs behind
/// it.
fn meant_words<'a>(alloc: Global, words: &'a [String]) -> Result<Vec<&'a str>, AllocError>
    ensures { IfOk result (λ meant.
        map (λ word. word.now) meant.items ≡ meant_words (map string_bytes words.now)) }
{
    let mut meant = lent_words(alloc, words)?;
    if is_flag_first(meant.as_slice()) {
        meant.as_mut_slice().swap(1, 2);
    }
    Ok(meant)
}

/// Returns the texts of `words`.
fn lent_words<'a>(alloc: Global, words: &'a [String]) -> Result<Vec<&'a str>, AllocError>
    ensures { IfOk result (λ lent.
        map (λ word. word.now) lent.items ≡ map string_bytes words.now) }
{
    let mut lent = Vec::new(alloc);
    for word in words {
        lent.push(word.as_str())?;
    }
    Ok(lent)
}

/// Whether the flag for more on a refusal stands before a name.
fn is_flag_first(words: &[&str]) -> bool
    ensures { result ≡ is_flag_first (map (λ word. word.now) words.now) }
{
    words.len() > 2 && is_verbose(words[1]) && is_name(words[2])
}

/// Whether a word is the flag for more on a refusal.
fn is_verbose(word: &str) -> bool
    ensures { result ≡ is_verbose word.now }
{
    word == "-v" || word == "--verbose"
}

/// Whether a word is no option.
fn is_name(word: &str) -> bool
    ensures { result ≡ is_name word.now }
{
    let bytes = word.as_bytes();
    bytes.is_empty() || bytes[0] != b'-'
}

/// Returns what the subcommand that `clap` found requests. `clap` has refused a command line without one.
fn request_of_words(alloc: Global, found: &ArgMatches<'_>) -> Result<Request, Refusal>
    ensures request { IfOk result (IsRequestFound (subcommand_rows_of found.now)) }
    ensures runnable { IfOk result IsRunnable }
    ensures memory { IsOkUnless result Memory }
{
    let Some((name, matches)) = found.subcommand() else {
        return unknown_subcommand(alloc);
    };
    match subcommand_named(name) {
        Some(subcommand) => request_of_matches(alloc, subcommand, matches),
        None => unknown_subcommand(alloc),
    }
}

/// Returns the fault that the subcommand is not known.
fn unknown_subcommand(alloc: Global) -> Result<Request, Refusal>
    ensures fault { IfOk result IsFault }
    ensures memory { IsOkUnless result Memory }
{
    Ok(Request::Fault(Mistake::Unknown.text(alloc)?))
}

/// Returns what `subcommand` requests with the options that `clap` found after it.
fn request_of_matches(
    alloc: Global,
    subcommand: Subcommand,
    matches: &ArgMatches<'_>,
) -> Result<Request, Refusal>
    ensures request { IfOk result (IsRequestFor subcommand (rows_of (found_of matches.now))) }
    ensures runnable { IfOk result IsRunnable }
    ensures memory { IsOkUnless result Memory }
{
    match request_for(alloc, subcommand, &options_in(matches)) {
        Ok(request) => Ok(request),
        Err(mistake) => fault_of_mistake(alloc, subcommand, &mistake),
    }
}

/// Returns the fault with the message of a mistake in the options of `subcommand`.
fn fault_of_mistake(
    alloc: Global,
    subcommand: Subcommand,
    mistake: &Mistake<'_>,
) -> Result<Request, Refusal>
    ensures fault { IfOk result (IsFaultOf mistake.now) }
    ensures memory { IsOkUnless result Memory }
{
    if mistake.has_usage() {
        let message = mistake.message(alloc)?;
        let text = fault_text(alloc, subcommand, message.as_str())?;
        return Ok(Request::Fault(text));
    }
    Ok(Request::Fault(mistake.text(alloc)?))
}

/// Returns the request with the text of `error`: help, the version, or what is wrong.
fn request_of_error(alloc: Global, error: &Error) -> Result<Request, Refusal>
    ensures printed { IfOk result (IsPrinted (kind_of error.now)) }
    ensures with_memory { IfOk result (λ _. kind_of error.now ≢ OutOfMemory) }
    ensures memory { IsOkUnless result Memory }
{
    if error.kind() == ErrorKind::OutOfMemory {
        return Err(Refusal::Memory);
    }
    let text = error.to_string(alloc)?;
    if error.use_stderr() {
        Ok(Request::Fault(text))
    } else {
        Ok(Request::Help(text))
    }
}
