ghost use Rattle.std.specs.Prelude.{◌≡◌, ◌+◌, ◌-◌, ◌^◌, ◌<◌, OnOk, OnErr, IsOkUnless};
ghost use Rattle.std.specs.Io.KnownBytes.{Appends};
ghost use Rattle.omega_io.specs.Failures.{failures_of};
ghost use Rattle.omega_io.specs.Writing.{TellsTo, WritesBeginning};

use crate::output::Output;
use omega_text::Refusal;

/// Writes all of `text`. After [Refusal::Io] a beginning of it was written, and not all.
pub fn write_text<W: Output>(output: &mut W, text: &[u8]) -> Result<(), Refusal>
    requires { W.failed output.old < 2 ^ 64 - 1 }
    ensures whole { OnOk result (Appends (W.contents output.old) (W.contents output.new) text.now) }
    ensures beginning { OnErr result
        (WritesBeginning (W.contents output.old) (W.contents output.new) text.now) }
    ensures counted { W.failed output.new ≡ W.failed output.old + failures_of result }
    ensures io { IsOkUnless result Refusal.Io }
{
    let mut rest = text;
    while !rest.is_empty() {
        let count = output.write(rest)?;
        rest = &rest[count..];
    }
    Ok(())
}

/// Writes `text`, and ignores a failed write, which nothing could report.
pub fn tell<W: Output>(output: &mut W, text: &[u8])
    requires { W.failed output.old < 2 ^ 64 - 1 }
    ensures { TellsTo W.Output output.old output.new text.now }
{
    let _ = write_text(output, text);
}
