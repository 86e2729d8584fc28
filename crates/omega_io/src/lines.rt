ghost use Rattle.std.specs.Prelude.{◌≡◌, ◌++◌, IfOk, OnOk, IsOkUnless};
ghost use Rattle.omega_io.specs.Lines.{failure_line, file_lines, is_unheard, lines_in, stream_lines};
ghost use Rattle.omega_io.specs.Reason.{because};

use crate::failure::Failure;
use crate::reason::Reason;
use crate::refusal_text::refusal_line;
use omega_text::Refusal;
use std::alloc::Global;

/// Returns the lines that the program prints for a `refusal` of a text with this `name`.
pub fn lines_in(alloc: Global, name: &str, refusal: Refusal) -> Result<Vec<u8>, Refusal>
    ensures lines { IfOk result (λ lines. lines.items ≡ lines_in name.now refusal) }
    ensures memory { IsOkUnless result Refusal.Memory }
{
    let mut lines = Vec::new(alloc);
    refusal_line(&refusal, &mut lines)?;
    append_naming(b"omega: in the ", name, b"\n", &mut lines)?;
    Ok(lines)
}

/// Returns the lines that the program prints for the `refusal` of the file with this `name`. They have the name, and
/// the `reason` if there is one, only after [Refusal::Io].
pub fn file_lines(
    alloc: Global,
    name: &str,
    reason: Option<Reason>,
    refusal: Refusal,
) -> Result<Vec<u8>, Refusal>
    ensures lines { IfOk result (λ lines. lines.items ≡ file_lines name.now reason refusal) }
    ensures memory { IsOkUnless result Refusal.Memory }
{
    let mut lines = Vec::new(alloc);
    refusal_line(&refusal, &mut lines)?;
    if let Refusal::Io = refusal {
        append_naming(b"omega: cannot read '", name, b"'", &mut lines)?;
        append_reason(reason, &mut lines)?;
    }
    Ok(lines)
}

/// Returns the lines that the program prints for the `refusal` of a run in which this `failure` came, if it is
/// [Refusal::Io]. They say what failed only if `verbose` is set. There are none if nobody reads the output.
pub fn stream_lines(
    alloc: Global,
    verbose: bool,
    failure: Failure,
    refusal: Refusal,
) -> Result<Vec<u8>, Refusal>
    ensures lines { IfOk result (λ lines. lines.items ≡ stream_lines verbose failure refusal) }
    ensures memory { IsOkUnless result Refusal.Memory }
{
    let mut lines = Vec::new(alloc);
    let Refusal::Io = refusal else {
        refusal_line(&refusal, &mut lines)?;
        return Ok(lines);
    };
    if is_unheard(failure) {
        return Ok(lines);
    }
    refusal_line(&refusal, &mut lines)?;
    if verbose {
        append_failure(failure, &mut lines)?;
    }
    Ok(lines)
}

/// Tests whether a write failed since nobody reads the pipe.
fn is_unheard(failure: Failure) -> bool
    ensures { result ≡ is_unheard failure }
{
    match failure {
        Failure::Writing(Some(Reason::BrokenPipe)) => true,
        _ => false,
    }
}

/// Appends the line that says which stream failed, and why, if there is a reason.
fn append_failure(failure: Failure, out: &mut Vec<u8>) -> Result<(), Refusal>
    ensures ok { OnOk result (out.new.items ≡ out.old.items ++ failure_line failure) }
    ensures memory { IsOkUnless result Refusal.Memory }
{
    match failure {
        Failure::Reading(reason) => append_why(b"omega: cannot read standard input", reason, out),
        Failure::Writing(reason) => append_why(b"omega: cannot write standard output", reason, out),
    }
}

/// Appends a line of `front` and the `reason`, if there is one.
fn append_why(front: &[u8], reason: Option<Reason>, out: &mut Vec<u8>) -> Result<(), Refusal>
    ensures ok { OnOk result (out.new.items ≡ out.old.items ++ (front.now ++ because reason)) }
    ensures memory { IsOkUnless result Refusal.Memory }
{
    out.extend_from_slice(front)?;
    append_reason(reason, out)
}

/// Appends the end of a line that says what failed: the `reason` after a colon, if there is one.
fn append_reason(reason: Option<Reason>, out: &mut Vec<u8>) -> Result<(), Refusal>
    ensures ok { OnOk result (out.new.items ≡ out.old.items ++ because reason) }
    ensures memory { IsOkUnless result Refusal.Memory }
{
    if let Some(reason) = reason {
        out.extend_from_slice(b": ")?;
        out.extend_from_slice(reason.text().as_bytes())?;
    }
    out.extend_from_slice(b"\n")?;
    Ok(())
}

/// Appends `name` between `front` and `back`.
fn append_naming(front: &[u8], name: &str, back: &[u8], out: &mut Vec<u8>) -> Result<(), Refusal>
    ensures ok { OnOk result (out.new.items ≡ out.old.items ++ (front.now ++ (name.now ++ back.now))) }
    ensures memory { IsOkUnless result Refusal.Memory }
{
    out.extend_from_slice(front)?;
    out.extend_from_slice(name.as_bytes())?;
    out.extend_from_slice(back)?;
    Ok(())
}
